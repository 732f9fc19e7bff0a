//! What is spelled since the second format. In the first it is absent, and has no bytes.
ghost use Rattle.std.specs.Prelude.{◌≡◌, ◌++◌, Bool, IsTrue, [], None};
ghost use Rattle.sm_record.specs.Codec.{both};
ghost use Rattle.sm_record.specs.Editions.{is_empty, is_none, since};
ghost use Rattle.sm_record.specs.Reading.{Gives};

use crate::edition::Edition;
use crate::field::Field;
use crate::out::Out;
use crate::unread::Unread;
use sm_model::{List, Text};
use std::alloc::Global;

/// What has a value that says that nothing is there.
pub trait Optional: Field {
    ghost absent: { Self };

    ghost is_absent: { Self → Bool };

    /// The value that says that nothing is there. It takes no memory.
    fn none(alloc: Global) -> Self
        ensures { result ≡ absent };

    /// Whether nothing is there.
    fn says_none(&self) -> bool
        ensures { result ≡ is_absent self.now };
}

impl Optional for Text {
    ghost absent = { [] };

    ghost is_absent = { is_empty };

    fn none(_alloc: Global) -> Text {
        Text::fixed("")
    }

    fn says_none(&self) -> bool {
        self.len() == 0
    }
}

impl<A: Field> Optional for List<A> {
    ghost absent = { [] };

    ghost is_absent = { is_empty };

    fn none(alloc: Global) -> List<A> {
        List::empty(alloc)
    }

    fn says_none(&self) -> bool {
        self.len() == 0
    }
}

impl<A: Field> Optional for Option<A> {
    ghost absent = { None };

    ghost is_absent = { is_none };

    fn none(_alloc: Global) -> Option<A> {
        None
    }

    fn says_none(&self) -> bool {
        match self {
            None => true,
            Some(_) => false,
        }
    }
}

/// Whether a thing that is spelled since the second format has a spelling.
pub fn since_fits<A: Optional>(edition: Edition, thing: &A) -> bool
    ensures { result ≡ (since A.absent A.is_absent (A.codec edition) edition).fits thing.now }
{
    match edition {
        Edition::First => thing.says_none(),
        Edition::Second => thing.fits(edition),
    }
}

/// A thing that is spelled since the second format.
pub fn since_at<A: Optional>(
    alloc: Global,
    edition: Edition,
    bytes: &[u8],
) -> Result<(A, &[u8]), Unread>
    ensures { Gives (λ x. (x.0, x.1.now)) result
        ((since A.absent A.is_absent (A.codec edition) edition).read bytes.now) }
{
    match edition {
        Edition::First => Ok((A::none(alloc), bytes)),
        Edition::Second => A::read_front(alloc, edition, bytes),
    }
}

/// A thing that is spelled since the second format, and another behind it.
pub fn since_then<A: Optional, B: Field>(
    alloc: Global,
    edition: Edition,
    bytes: &[u8],
) -> Result<((A, B), &[u8]), Unread>
    ensures { Gives (λ x. (x.0, x.1.now)) result
        ((both (since A.absent A.is_absent (A.codec edition) edition) (B.codec edition)).read bytes.now) }
{
    let (first, rest) = since_at::<A>(alloc, edition, bytes)?;
    let (second, behind) = B::read_front(alloc, edition, rest)?;
    Ok(((first, second), behind))
}

/// Writes a thing that is spelled since the second format.
pub fn put_since<A: Optional>(edition: Edition, out: &mut Out, thing: &A)
    requires { IsTrue ((since A.absent A.is_absent (A.codec edition) edition).fits thing.now) }
    ensures { out.new ≡ out.old ++ (since A.absent A.is_absent (A.codec edition) edition).spell thing.now }
{
    match edition {
        Edition::First => {}
        Edition::Second => thing.put(edition, out),
    }
}
