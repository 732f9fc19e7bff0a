//! Entering what is due: an entry is made, unless it would pass a limit or the disk fails.
ghost use Rattle.std.specs.Prelude.{◌≡◌, ◌≤◌, length, IfOk};
ghost use Rattle.sm_journal.specs.Records.{body_limit};
ghost use Rattle.sm_store.specs.Appends.{IsReady};
ghost use Rattle.sm_account.specs.AccountState.{Kept, state_in};
ghost use Rattle.sm_account.specs.CallOutcomes.{Leaves};
ghost use Rattle.sm_account.specs.Growing.{HasCapacity};
ghost use Rattle.sm_account.specs.Handling.{LimitsAside, MayEnter};
ghost use Rattle.sm_account.specs.Limits.{EntersAs, entered_by, passed_at, tried_entry};
ghost use Rattle.sm_account.specs.Outcome.{is_full};

use crate::account_state::AccountState;
use crate::counting::entries_count;
use crate::due::Due;
use crate::growing::grow;
use crate::making::make;
use sm_base::limits::ENTRIES_LIMIT;
use sm_core::{Replayed, again};
use sm_disk::{Disk, DiskFailed};
use sm_journal::record_size;
use sm_model::{Entry, NoMemory, What};

/// A limit that an entry would pass.
#[derive(Clone, Copy, Debug, PartialEq, Eq)]
pub struct Passed {
    pub limit: u64,
    pub what: What,
}

/// What became of an entry that was due.
#[derive(Clone, Copy, Debug, PartialEq, Eq)]
pub enum Entered {
    Made,
    /// It would pass this limit.
    Over(Passed),
    DiskFault,
}

/// Makes an entry that is legal at the rows, unless it would pass a limit.
pub fn enter_legal<D: Disk>(
    inner: &mut AccountState<D>,
    seat: u32,
    entry: Entry,
) -> Result<Entered, NoMemory>
    requires kept { Kept D.Disk inner.old }
    requires may { MayEnter inner.old entry }
    ensures kept { Kept D.Disk inner.new }
    ensures enters { IfOk result (λ entered. EntersAs entered (passed_at (state_in inner.old) entry)) }
    ensures leaves { Leaves D.Disk inner.old inner.new seat (tried_entry result entry) }
{
    match again(inner.alloc, &inner.table, &entry) {
        Replayed::Accept(change) => match grow(inner, entry, change) {
            Ok(due) => Ok(enter_due(inner, seat, due)),
            Err(NoMemory) => Err(NoMemory),
        },
        Replayed::Refuse => unreachable!(),
        Replayed::Memory => Err(NoMemory),
    }
}

/// Makes an entry for which all memory is there, unless it would pass a limit.
pub fn enter_due<D: Disk>(inner: &mut AccountState<D>, seat: u32, due: Due) -> Entered
    requires kept { Kept D.Disk inner.old }
    requires due { LimitsAside inner.old due }
    requires room { HasCapacity inner.old }
    ensures kept { Kept D.Disk inner.new }
    ensures enters { EntersAs result (passed_at (state_in inner.old) due.entry) }
    ensures leaves { Leaves D.Disk inner.old inner.new seat (entered_by result due.entry) }
{
    match passed_limit(inner, &due) {
        Some(passed) => Entered::Over(passed),
        None => match make(inner, seat, due) {
            Ok(()) => Entered::Made,
            Err(DiskFailed) => Entered::DiskFault,
        },
    }
}

/// Whether no entry more may be made: so many were made since the opening, or as many as can be counted in all.
fn is_full<D: Disk>(inner: &AccountState<D>) -> bool
    requires { Kept D.Disk inner.now }
    ensures { result ≡ is_full (state_in inner.now) }
{
    inner.made >= ENTRIES_LIMIT || entries_count(inner) >= u64::MAX
}

/// The limit that an entry would pass.
fn passed_limit<D: Disk>(inner: &AccountState<D>, due: &Due) -> Option<Passed>
    requires kept { Kept D.Disk inner.now }
    requires spells { IsReady due.now.entry due.now.ready }
    requires short { length due.now.ready ≤ body_limit }
    ensures { result ≡ passed_at (state_in inner.now) due.now.entry }
{
    if is_full(inner) {
        return Some(Passed {
            limit: ENTRIES_LIMIT,
            what: What::Entries,
        });
    }
    let size = record_size(due.ready.as_slice());
    if inner.store.length().saturating_add(size) > inner.limit {
        return Some(Passed {
            limit: inner.limit,
            what: What::JournalBytes,
        });
    }
    None
}
