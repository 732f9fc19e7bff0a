//! Why bytes were not read.
use sm_model::NoMemory;
use std::alloc::{AllocError, AllocFailed};
use std::error::Error;
use std::fmt;

/// Why a field was not read.
#[derive(Clone, Copy, Debug, PartialEq, Eq)]
pub enum Unread {
    /// It is not spelled. So many bytes are left from the first field on that is not.
    Left(usize),
    Memory,
}

impl From<NoMemory> for Unread {
    ghost use Rattle.std.specs.Prelude.{◌≡◌};
    ghost use Rattle.sm_record.specs.declared.unread.Unread.TheVariants.{Memory};

    ghost from_gives = { λ _ e. e ≡ Memory };

    fn from(_error: NoMemory) -> Unread {
        Unread::Memory
    }
}

impl From<AllocError> for Unread {
    ghost use Rattle.std.specs.Prelude.{◌≡◌};
    ghost use Rattle.sm_record.specs.declared.unread.Unread.TheVariants.{Memory};

    ghost from_gives = { λ _ e. e ≡ Memory };

    fn from(_error: AllocError) -> Unread {
        Unread::Memory
    }
}

impl<T: Drop> From<AllocFailed<T>> for Unread {
    ghost use Rattle.std.specs.Prelude.{◌≡◌};
    ghost use Rattle.sm_record.specs.declared.unread.Unread.TheVariants.{Memory};

    ghost from_gives = { λ _ e. e ≡ Memory };

    fn from(_error: AllocFailed<T>) -> Unread {
        Unread::Memory
    }
}

/// Why a body was not read as an entry.
#[derive(Clone, Copy, Debug, PartialEq, Eq)]
pub enum DecodeRefused {
    /// It is no entry's spelling. The number is the place of the first field that is not spelled, or of the first byte
    /// behind the entry.
    NoEntry(usize),
    Memory,
}

impl fmt::Display for DecodeRefused {
    fn fmt<W: fmt::Write>(&self, f: &mut fmt::Formatter<W>) -> fmt::Result {
        match self {
            DecodeRefused::NoEntry(place) => write!(f, "no entry at byte {place}"),
            DecodeRefused::Memory => f.write_str("out of memory"),
        }
    }
}

impl Error for DecodeRefused {}
