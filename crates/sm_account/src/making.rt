//! Making an entry: on the disk, in the rows and in the history.
ghost use Rattle.std.specs.Prelude.{◌≡◌, ◌⊎◌, ◌+◌, ◌<◌, ◌≤◌, ◌-◌, ◌^◌, ◌++◌, ◌∷◌, [], None, Some, IsSome, OnErr, IsOk};
ghost use Rattle.sm_base.specs.declared.limits.TheConstants.{ENTRIES_LIMIT};
ghost use Rattle.sm_model.specs.declared.entry.Mark.TheVariants as mark;
ghost use Rattle.sm_table.specs.Changes.{changed, StandsAt};
ghost use Rattle.sm_table.specs.Sound.{ChangeSound, Sound};
ghost use Rattle.sm_table.specs.Sweep.{sweep};
ghost use Rattle.sm_disk.specs.Faults.{HasCause};
ghost use Rattle.sm_account.specs.AccountState.{Kept, IsDueAt, SameOrigin, all_held, disk_in, history_in, state_in};
ghost use Rattle.sm_account.specs.Crashes.{Throughout};
ghost use Rattle.sm_account.specs.Growing.{HasCapacity};
ghost use Rattle.sm_account.specs.Making.{mark_made};
ghost use Rattle.sm_account.specs.Writing.{WritesAs, OnFault, UnlessFault};
ghost use Rattle.sm_base.specs.Faults.{Rose};
ghost use Rattle.sm_store.specs.Appends.{SamePlace};

use crate::account_state::AccountState;
use crate::due::Due;
use crate::told::Told;
use crate::writing::{Written, write};
use sm_disk::{Disk, DiskFailed};
use sm_model::Entry;
use std::snapshot::Snapshot;

/// Writes an entry that is due, makes its change and adds it to the history. Where the disk fails the rows stay, and
/// the history has a fault of the seat more.
pub fn make<D: Disk>(inner: &mut AccountState<D>, seat: u32, due: Due) -> Result<(), DiskFailed>
    requires kept { Kept D.Disk inner.old }
    requires due { IsDueAt inner.old due.entry due.ready due.prepared.change }
    requires prepared { due.prepared.before ≡ inner.old.table }
    requires room { HasCapacity inner.old }
    ensures kept { Kept D.Disk inner.new }
    ensures history { history_in inner.new ≡ history_in inner.old ++ (seat, mark_made result due.entry) ∷ [] }
    ensures origin { SameOrigin inner.old inner.new }
    ensures sure { IsOk result → inner.new.failed.value ≡ None }
    ensures fault { OnErr result (state_in inner.new ≡ state_in inner.old) }
    ensures torn { OnErr result (
        ((inner.new.failed.value ≡ inner.old.failed.value) × IsSome inner.old.failed.value)
        ⊎ (inner.new.failed.value ≡ Some due.entry)) }
    ensures any_moment { Throughout D.Disk (all_held inner.old) inner.old.failed.value due.entry
        (disk_in inner.old) (disk_in inner.new) }
    ensures cause { HasCause (D.faults (disk_in inner.old)) (D.faults (disk_in inner.new)) result }
{
    match write_ready(inner, &due) {
        Written::Ok => {
            commit_written(inner, seat, due);
            Ok(())
        }
        Written::Unmended => {
            fault(inner, seat);
            Err(DiskFailed)
        }
        Written::Torn => {
            tear(inner, seat, due);
            Err(DiskFailed)
        }
    }
}

/// Writes an entry that is due to the disk. Nothing else of the account's state changes.
fn write_ready<D: Disk>(inner: &mut AccountState<D>, due: &Due) -> Written
    requires kept { Kept D.Disk inner.old }
    requires due { IsDueAt inner.old due.now.entry due.now.ready due.now.prepared.change }
    ensures answer { WritesAs inner.old.store due.now.entry inner.new.store result }
    ensures rest { inner.new ≡ record inner.old { store = inner.new.store } }
    ensures same { SamePlace inner.old.store inner.new.store }
    ensures any_moment { Throughout D.Disk (all_held inner.old) inner.old.failed.value due.now.entry
        (disk_in inner.old) (disk_in inner.new) }
    ensures later { D.faults (disk_in inner.old) ≤ D.faults (disk_in inner.new) }
    ensures failed { OnFault result (Rose (D.faults (disk_in inner.old)) (D.faults (disk_in inner.new))) }
    ensures no_other { UnlessFault result (D.faults (disk_in inner.new) ≡ D.faults (disk_in inner.old)) }
{
    write(&mut inner.store, &due.ready)
}

/// Makes the change of an entry that was written, and adds it to the history.
fn commit_written<D: Disk>(inner: &mut AccountState<D>, seat: u32, due: Due)
    requires prepared { due.prepared.before ≡ inner.old.table }
    requires stands { StandsAt inner.old.table due.entry.moment due.prepared.change }
    requires counted { inner.old.made < ENTRIES_LIMIT }
    requires room { HasCapacity inner.old }
    ensures history { history_in inner.new ≡ history_in inner.old ++ (seat, mark.Entry due.entry) ∷ [] }
    ensures sure { inner.new.failed.value ≡ None }
    ensures rest { inner.new ≡ record inner.old {
      table = changed (sweep inner.old.table due.entry.moment) due.prepared.change;
      last = due.entry.moment;
      made = inner.old.made + 1;
      failed = inner.new.failed;
      entries = inner.new.entries;
      told = inner.new.told;
      marks = inner.old.marks + 1;
    } }
    ensures entries { inner.new.entries.items ≡ inner.old.entries.items ++ due.entry ∷ [] }
    ensures sound { Sound inner.old.table →
        ChangeSound (sweep inner.old.table due.entry.moment) due.prepared.change → Sound inner.new.table }
{
    let Due {
        entry,
        prepared,
        ..
    } = due;
    inner.table.commit(prepared, entry.moment);
    inner.last = entry.moment;
    inner.made += 1;
    let none: Option<Entry> = None;
    inner.failed = Snapshot::of(&none);
    inner.told = Told::entered(&inner.told, &seat, &entry);
    inner.marks += 1;
    inner.entries.push_reserved(entry);
}

/// Adds a fault of the disk to the history.
fn fault<D: Disk>(inner: &mut AccountState<D>, seat: u32)
    requires { inner.old.marks < 2 ^ 64 - 1 }
    ensures history { history_in inner.new ≡ history_in inner.old ++ (seat, mark.Fault) ∷ [] }
    ensures rest { inner.new ≡ record inner.old { told = inner.new.told; marks = inner.old.marks + 1 } }
{
    inner.told = Told::failed(&inner.told, &seat);
    inner.marks += 1;
}

/// Adds a fault of the disk to the history, where an entry may stand on the disk or not.
fn tear<D: Disk>(inner: &mut AccountState<D>, seat: u32, due: Due)
    requires { inner.old.marks < 2 ^ 64 - 1 }
    ensures history { history_in inner.new ≡ history_in inner.old ++ (seat, mark.Fault) ∷ [] }
    ensures torn { inner.new.failed.value ≡ Some due.entry }
    ensures rest { inner.new ≡ record inner.old {
      failed = inner.new.failed;
      told = inner.new.told;
      marks = inner.old.marks + 1;
    } }
{
    let Due { entry, .. } = due;
    let torn = Some(entry);
    inner.failed = Snapshot::of(&torn);
    inner.told = Told::failed(&inner.told, &seat);
    inner.marks += 1;
}
