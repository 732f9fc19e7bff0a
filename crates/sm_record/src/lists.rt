//! One thing behind another, options and lists.
ghost use Rattle.std.specs.Prelude.{◌≡◌, ◌++◌, IsTrue, flat_map};
ghost use Rattle.std.specs.List.{list_all};
ghost use Rattle.sm_record.specs.Codec.{both, optional, read_items};
ghost use Rattle.sm_record.specs.Fields.{listed};
ghost use Rattle.sm_record.specs.Reading.{Gives};

use crate::edition::Edition;
use crate::field::Field;
use crate::numbers::{count_at, count_fits, put_count};
use crate::out::Out;
use crate::single::byte_at;
use crate::unread::Unread;
use sm_model::List;
use std::alloc::Global;

impl<A: Field, B: Field> Field for (A, B) {
    ghost codec = { λ e. both (A.codec e) (B.codec e) };

    fn fits(&self, edition: Edition) -> bool {
        self.0.fits(edition) && self.1.fits(edition)
    }

    fn read_front(
        alloc: Global,
        edition: Edition,
        bytes: &[u8],
    ) -> Result<((A, B), &[u8]), Unread> {
        let (first, rest) = A::read_front(alloc, edition, bytes)?;
        let (second, behind) = B::read_front(alloc, edition, rest)?;
        Ok(((first, second), behind))
    }

    #[tactic(auto, using(std::proofs::lemmas::List::append_assoc, std::proofs::lemmas::Bool::and_parts))]
    fn put(&self, edition: Edition, out: &mut Out) {
        self.0.put(edition, out);
        self.1.put(edition, out);
    }
}

impl<A: Field> Field for Option<A> {
    ghost codec = { λ e. optional (A.codec e) };

    #[tactic(auto, unfolding(crate::specs::Codec::optional))]
    fn fits(&self, edition: Edition) -> bool {
        match self {
            None => true,
            Some(thing) => thing.fits(edition),
        }
    }

    #[tactic(auto, unfolding(crate::specs::Codec::optional))]
    fn read_front(
        alloc: Global,
        edition: Edition,
        bytes: &[u8],
    ) -> Result<(Option<A>, &[u8]), Unread> {
        let (flag, rest) = byte_at(bytes)?;
        match flag {
            0 => Ok((None, rest)),
            1 => {
                let (thing, behind) = A::read_front(alloc, edition, rest)?;
                Ok((Some(thing), behind))
            }
            _ => Err(Unread::Left(rest.len() + 1)),
        }
    }

    #[tactic(auto, using(std::proofs::lemmas::List::append_assoc), unfolding(crate::specs::Codec::optional))]
    fn put(&self, edition: Edition, out: &mut Out) {
        match self {
            None => {
                out.push(0);
            }
            Some(thing) => {
                out.push(1);
                thing.put(edition, out);
            }
        }
    }
}

/// So many things. Memory is taken for those that are there alone.
fn items_at<A: Field>(
    alloc: Global,
    edition: Edition,
    count: u32,
    bytes: &[u8],
) -> Result<(Vec<A>, &[u8]), Unread>
    ensures { Gives (λ x. (x.0.items, x.1.now)) result (read_items (A.codec edition) count bytes.now) }
{
    let mut items = Vec::new(alloc);
    let mut rest = bytes;
    for _ in 0..count {
        let (item, behind) = A::read_front(alloc, edition, rest)?;
        items.push(item)?;
        rest = behind;
    }
    Ok((items, rest))
}

fn items_fit<A: Field>(edition: Edition, items: &[A]) -> bool
    ensures { result ≡ list_all (A.codec edition).fits items.now }
{
    items.iter().all(|item| item.fits(edition))
}

fn put_items<A: Field>(edition: Edition, out: &mut Out, items: &[A])
    requires { IsTrue (list_all (A.codec edition).fits items.now) }
    ensures { out.new ≡ out.old ++ flat_map (A.codec edition).spell items.now }
{
    for item in items {
        item.put(edition, out);
    }
}

impl<A: Field> Field for List<A> {
    ghost codec = { λ e. listed (A.codec e) };

    #[tactic(auto, unfolding(crate::specs::Fields::listed))]
    fn fits(&self, edition: Edition) -> bool {
        count_fits(self.len()) && items_fit(edition, self.as_slice())
    }

    #[tactic(auto, unfolding(crate::specs::Fields::listed))]
    fn read_front(
        alloc: Global,
        edition: Edition,
        bytes: &[u8],
    ) -> Result<(List<A>, &[u8]), Unread> {
        let (count, rest) = count_at(bytes)?;
        let (items, behind) = items_at(alloc, edition, count, rest)?;
        Ok((List::new(items), behind))
    }

    #[tactic(auto, using(std::proofs::lemmas::List::append_assoc, std::proofs::lemmas::Bool::and_parts), unfolding(crate::specs::Fields::listed))]
    fn put(&self, edition: Edition, out: &mut Out) {
        put_count(out, self.len());
        put_items(edition, out, self.as_slice());
    }
}
