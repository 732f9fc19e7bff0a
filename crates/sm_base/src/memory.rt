//! Want of memory, and copies.
ghost use Rattle.std.specs.Prelude.{◌≡◌, IfOk};

use std::alloc::{AllocError, AllocFailed, Global};
use std::error::Error;
use std::fmt;

/// Memory was wanted and there was none. It says nothing else.
#[derive(Clone, Copy, Debug, PartialEq, Eq)]
pub struct NoMemory;

impl fmt::Display for NoMemory {
    fn fmt<W: fmt::Write>(&self, f: &mut fmt::Formatter<W>) -> fmt::Result {
        f.write_str("out of memory")
    }
}

impl Error for NoMemory {}

impl From<AllocError> for NoMemory {
    fn from(_error: AllocError) -> NoMemory {
        NoMemory
    }
}

impl<T: Drop> From<AllocFailed<T>> for NoMemory {
    fn from(_error: AllocFailed<T>) -> NoMemory {
        NoMemory
    }
}

/// A value of which a second one can be made.
pub trait Copied: Drop {
    /// A value that equals this one.
    fn copy(&self, alloc: Global) -> Result<Self, NoMemory>
        ensures { IfOk result (λ copy. copy ≡ self.now) };
}

/// Copies of two things.
pub fn copy_two<A: Copied, B: Copied>(alloc: Global, a: &A, b: &B) -> Result<(A, B), NoMemory>
    ensures { IfOk result (λ copies. (copies.0 ≡ a.now) × (copies.1 ≡ b.now)) }
{
    let a = a.copy(alloc)?;
    Ok((a, b.copy(alloc)?))
}

/// Copies of three things.
pub fn copy_three<A: Copied, B: Copied, C: Copied>(
    alloc: Global,
    a: &A,
    b: &B,
    c: &C,
) -> Result<(A, B, C), NoMemory>
    ensures { IfOk result (λ copies. (copies.0 ≡ a.now) × (copies.1 ≡ b.now) × (copies.2 ≡ c.now)) }
{
    let (a, b) = copy_two(alloc, a, b)?;
    Ok((a, b, c.copy(alloc)?))
}

impl Copied for u32 {
    fn copy(&self, _alloc: Global) -> Result<u32, NoMemory> {
        Ok(*self)
    }
}

impl Copied for u64 {
    fn copy(&self, _alloc: Global) -> Result<u64, NoMemory> {
        Ok(*self)
    }
}

impl<T: Copied> Copied for Option<T> {
    fn copy(&self, alloc: Global) -> Result<Option<T>, NoMemory> {
        match self {
            Some(value) => Ok(Some(value.copy(alloc)?)),
            None => Ok(None),
        }
    }
}
