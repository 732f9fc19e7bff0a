//! What an opening gives.
ghost use Rattle.std.specs.Prelude.{◌≡◌};
ghost use Rattle.sm_recovery.specs.Lawful.{base_under};

use crate::ReplayState;
use sm_disk::Disk;
use sm_model::{Entry, List, Moment, Rows};
use sm_record::Base;
use sm_store::Store;
use std::alloc::Global;
use std::marker::Model;

/// A base, or none, and the entries behind it.
#[derive(Drop)]
pub struct Taken {
    pub base: Option<Base>,
    pub entries: List<Entry>,
}

impl Model for Taken {
    ghost use Rattle.sm_store.specs.Held.{Held};

    ghost Value = { Held };

    ghost view = { λ taken. record { base = taken.base; entries = taken.entries } };
}

/// A disk that was opened.
#[derive(Drop)]
pub struct Opened<D: Disk> {
    /// What entries are added to.
    pub store: Store<D>,
    /// What it holds.
    pub taken: Taken,
    /// What that makes.
    pub replayed: ReplayState,
    /// Where a base was put in the place of what was found: the length of the file before and that of the new one, in
    /// bytes.
    pub replaced: Option<(u64, u64)>,
}

/// What entries are counted from: a base, or where there is none what stands before all entries. It takes no memory.
pub fn base_under(alloc: Global, base: Option<Base>) -> Base
    ensures { result ≡ base_under base }
{
    match base {
        Some(base) => base,
        None => Base {
            rows: Rows {
                next: 0,
                secrets: List::empty(alloc),
            },
            last: Moment(0),
            entries: 0,
        },
    }
}
