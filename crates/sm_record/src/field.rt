//! What is spelled inside of an entry.
ghost use Rattle.std.specs.Prelude.{◌≡◌, ◌++◌, IsTrue};
ghost use Rattle.sm_record.specs.Codec.{Codec};
ghost use Rattle.sm_record.specs.declared.edition.Edition.{Edition};
ghost use Rattle.sm_record.specs.Reading.{Gives, Makes, IsMade};

use crate::edition::Edition;
use crate::out::Out;
use crate::unread::Unread;
use std::alloc::Global;

/// What has a spelling.
pub trait Field: Drop {
    /// How it is spelled in a format.
    ghost codec: { Edition → Codec Self };

    /// Whether it has a spelling. It takes no memory.
    fn fits(&self, edition: Edition) -> bool
        ensures { result ≡ (codec edition).fits self.now };

    /// Reads one at the front of bytes, and gives the bytes behind it too.
    fn read_front(alloc: Global, edition: Edition, bytes: &[u8]) -> Result<(Self, &[u8]), Unread>
        ensures { Gives (λ x. (x.0, x.1.now)) result ((codec edition).read bytes.now) };

    /// Writes its spelling at the end.
    fn put(&self, edition: Edition, out: &mut Out)
        requires { IsTrue ((codec edition).fits self.now) }
        ensures { out.new ≡ out.old ++ (codec edition).spell self.now };
}

/// What is made of what was read, and the bytes behind it.
pub fn made_of<A: Drop, B, F: FnOnce(A) -> B>(
    read: Result<(A, &[u8]), Unread>,
    make: F,
) -> Result<(B, &[u8]), Unread>
    requires { F.IsAlwaysCallable make }
    ensures { IsMade (F.post make) read.entry result }
{
    let (thing, rest) = read?;
    Ok((make(thing), rest))
}

/// What is made of the field at the front of bytes.
pub fn made_at<A: Field, B, F: FnOnce(A) -> B>(
    alloc: Global,
    edition: Edition,
    bytes: &[u8],
    make: F,
) -> Result<(B, &[u8]), Unread>
    requires { F.IsAlwaysCallable make }
    ensures { Makes (F.post make) (λ x. (x.0, x.1.now)) result ((A.codec edition).read bytes.now) }
{
    made_of(A::read_front(alloc, edition, bytes), make)
}
