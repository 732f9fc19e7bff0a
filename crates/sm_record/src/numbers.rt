//! Numbers, big end first.
ghost use Rattle.std.specs.Prelude.{◌≡◌, ◌++◌, IsTrue};
ghost use Rattle.sm_record.specs.Fields.{count, long, signed, moment};
ghost use Rattle.sm_record.specs.Reading.{Gives};

use crate::edition::Edition;
use crate::field::Field;
use crate::out::Out;
use crate::unread::Unread;
use sm_base::moment::LAST_READING;
use sm_model::Moment;
use std::alloc::Global;

/// A length or a count.
#[tactic(auto, unfolding(crate::specs::Fields::count))]
pub fn count_at(bytes: &[u8]) -> Result<(u32, &[u8]), Unread>
    ensures { Gives (λ x. (x.0, x.1.now)) result (count.read bytes.now) }
{
    if bytes.len() < 4 {
        return Err(Unread::Left(bytes.len()));
    }
    let (front, rest) = bytes.split_at(4);
    let number = u32::from_be_bytes([front[0], front[1], front[2], front[3]]);
    Ok((number, rest))
}

/// Eight bytes as a number.
#[tactic(auto, unfolding(crate::specs::Fields::long))]
pub fn long_at(bytes: &[u8]) -> Result<(u64, &[u8]), Unread>
    ensures { Gives (λ x. (x.0, x.1.now)) result (long.read bytes.now) }
{
    if bytes.len() < 8 {
        return Err(Unread::Left(bytes.len()));
    }
    let (front, rest) = bytes.split_at(8);
    let number = u64::from_be_bytes([
        front[0], front[1], front[2], front[3], front[4], front[5], front[6], front[7],
    ]);
    Ok((number, rest))
}

/// Whether a length or a count is one of four bytes.
#[tactic(auto, unfolding(crate::specs::Fields::count))]
pub fn count_fits(number: usize) -> bool
    ensures { result ≡ count.fits number }
{
    number <= u32::MAX as usize
}

/// Writes a length or a count.
#[tactic(auto, unfolding(crate::specs::Fields::count))]
pub fn put_count(out: &mut Out, number: usize)
    requires { IsTrue (count.fits number) }
    ensures { out.new ≡ out.old ++ count.spell number }
{
    let number = number as u32;
    out.extend(&number.to_be_bytes());
}

/// Writes eight bytes.
#[tactic(auto, unfolding(crate::specs::Fields::long))]
pub fn put_long(out: &mut Out, number: u64)
    ensures { out.new ≡ out.old ++ long.spell number }
{
    out.extend(&number.to_be_bytes());
}

impl Field for i64 {
    ghost codec = { λ _. signed };

    #[tactic(auto, using(crate::proofs::FitLemmas::signed_fits), unfolding(crate::specs::Fields::signed))]
    fn fits(&self, _edition: Edition) -> bool {
        let _number = *self;
        true
    }

    #[tactic(auto, unfolding(crate::specs::Fields::signed))]
    fn read_front(_alloc: Global, _edition: Edition, bytes: &[u8]) -> Result<(i64, &[u8]), Unread> {
        let (number, rest) = long_at(bytes)?;
        Ok((number.cast_signed(), rest))
    }

    #[tactic(auto, unfolding(crate::specs::Fields::signed))]
    fn put(&self, _edition: Edition, out: &mut Out) {
        put_long(out, self.cast_unsigned());
    }
}

impl Field for Moment {
    ghost codec = { λ _. moment };

    #[tactic(auto, using(crate::proofs::FitLemmas::moment_fits), unfolding(crate::specs::Fields::moment, crate::specs::Fields::long))]
    fn fits(&self, _edition: Edition) -> bool {
        self.0 <= LAST_READING
    }

    #[tactic(auto, unfolding(crate::specs::Fields::moment))]
    fn read_front(
        _alloc: Global,
        _edition: Edition,
        bytes: &[u8],
    ) -> Result<(Moment, &[u8]), Unread> {
        let (seconds, rest) = long_at(bytes)?;
        if seconds <= LAST_READING {
            Ok((Moment(seconds), rest))
        } else {
            Err(Unread::Left(bytes.len()))
        }
    }

    #[tactic(auto, unfolding(crate::specs::Fields::moment))]
    fn put(&self, _edition: Edition, out: &mut Out) {
        put_long(out, self.0);
    }
}
