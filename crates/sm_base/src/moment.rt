//! Moments.
ghost use Rattle.std.specs.Prelude.{◌≡◌};

use crate::memory::{Copied, NoMemory};
use std::alloc::Global;

/// The greatest reading of a clock.
pub const LAST_READING: u64 = 200_000_000_000;

/// The number as it is stated, so that the constant stays it.
pub fn last_reading_is_as_stated()
    ensures { LAST_READING ≡ 200000000000 }
{}

/// Whole seconds since the beginning of 1970 in UTC.
#[derive(Clone, Copy, Debug, PartialEq, Eq, PartialOrd, Ord)]
pub struct Moment(pub u64);

impl Copied for Moment {
    fn copy(&self, _alloc: Global) -> Result<Moment, NoMemory> {
        Ok(*self)
    }
}
