//! The summary of what an account holds.
ghost use Rattle.std.specs.Prelude.{◌≡◌, ◌≤◌, ◌∷◌, [], List, ℕ};
ghost use Rattle.std.specs.Io.KnownBytes.{append_known};
ghost use Rattle.sm_base.specs.Faults.{Rose};
ghost use Rattle.sm_base.specs.declared.moment.Moment.{Moment as moments};
ghost use Rattle.sm_account.specs.Accounts.{all_of, rows};
ghost use Rattle.sm_recovery.specs.Lawful.{made_of};
ghost use Rattle.sm_server.specs.Checks.{Shows, WritesBy};

use crate::status::Status;
use sm_account::Account;
use sm_disk::Disk;
use sm_io::{Clock, Sink, Wrote, put_all};
use sm_model::NoMemory;
use sm_rotator::Rotator;
use sm_summary::summary;
use std::alloc::Global;

/// Writes the summary of what an account holds at a reading of the clock.
pub fn summarize<K: Sink, D: Disk, C: Clock, R: Rotator>(
    alloc: Global,
    account: &Account<D, R>,
    sink: &mut K,
    clock: &mut C,
) -> Status
    ensures shows { (now : moments) × (written : List ℕ)
        × (C.readings clock.new ≡ append_known (C.readings clock.old) (now.0 ∷ []))
        × (K.taken sink.new ≡ append_known (K.taken sink.old) written)
        × Shows (Rose (K.sink_faults sink.old) (K.sink_faults sink.new)) (rows account.now) now
        (made_of (all_of account.now)).entries result written }
    ensures later { K.sink_faults sink.old ≤ K.sink_faults sink.new }
{
    account.invariants();
    let now = clock.now();
    match summary(alloc, account.table(), now, account.entries()) {
        Ok(text) => show(sink, text.as_bytes()),
        Err(NoMemory) => Status::Memory,
    }
}

/// Writes a text.
pub(crate) fn show<K: Sink>(sink: &mut K, text: &[u8]) -> Status
    ensures shows { (written : List ℕ) × (K.taken sink.new ≡ append_known (K.taken sink.old) written)
        × WritesBy (Rose (K.sink_faults sink.old) (K.sink_faults sink.new)) result text.now written }
    ensures later { K.sink_faults sink.old ≤ K.sink_faults sink.new }
{
    match put_all(sink, text) {
        Wrote::Ok => Status::Done,
        Wrote::Fault(taken) => Status::SinkFault(taken),
    }
}
