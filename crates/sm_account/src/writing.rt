//! Writing an entry to the disk.
ghost use Rattle.std.specs.Prelude.{◌≡◌, ◌≤◌, ◌+◌, Option, None, Some, true, false, length};
ghost use Rattle.sm_base.specs.Faults.{Rose};
ghost use Rattle.sm_journal.specs.Records.{body_limit, record_size};
ghost use Rattle.sm_journal.specs.declared.format.Format.TheVariants as formats;
ghost use Rattle.sm_model.specs.declared.entry.Entry.{Entry};
ghost use Rattle.sm_store.specs.Appends.{IsReady, SamePlace};
ghost use Rattle.sm_store.specs.Stores.{disk_of, format_of, is_unsure, length_of, limit_of, Holds};
ghost use Rattle.sm_store.specs.Held.{Held};
ghost use Rattle.sm_account.specs.Crashes.{AllRecover, Throughout};
ghost use Rattle.sm_account.specs.Writing.{WritesAs, AppendsBehind, OnFault, UnlessFault};

use sm_disk::Disk;
use sm_model::Bytes;
use sm_store::{Appended, Store};

/// What became of an entry that was to be written.
#[derive(Clone, Copy, Debug, PartialEq, Eq)]
pub enum Written {
    Ok,
    /// The disk failed before the entry's turn, where the tail was mended.
    Unmended,
    /// The disk failed at the entry: it may stand there, or not.
    Torn,
}

/// Mends an unsure tail, and writes the entry of this spelling behind what is held.
pub fn write<D: Disk>(store: &mut Store<D>, ready: &Bytes) -> Written
    requires format { format_of store.old ≡ formats.Second }
    requires spelled { (e : Entry) × IsReady e ready.now }
    requires short { length ready.now ≤ body_limit }
    requires fits { length_of store.old + record_size ready.now ≤ limit_of store.old }
    ensures answer { (e : Entry) → IsReady e ready.now → WritesAs store.old e store.new result }
    ensures same { SamePlace store.old store.new }
    ensures any_moment { (e : Entry) → IsReady e ready.now → (h : Held) (failed : Option Entry) →
        Holds store.old h failed → Throughout D.Disk h failed e (disk_of store.old) (disk_of store.new) }
    ensures later { D.faults (disk_of store.old) ≤ D.faults (disk_of store.new) }
    ensures failed { OnFault result (Rose (D.faults (disk_of store.old)) (D.faults (disk_of store.new))) }
    ensures no_other { UnlessFault result (D.faults (disk_of store.new) ≡ D.faults (disk_of store.old)) }
{
    match store.mend() {
        Ok(()) => append(store, ready),
        Err(_) => Written::Unmended,
    }
}

/// Writes the entry of this spelling behind what is held, where the tail is sure.
fn append<D: Disk>(store: &mut Store<D>, ready: &Bytes) -> Written
    requires sure { is_unsure store.old ≡ false }
    requires format { format_of store.old ≡ formats.Second }
    requires spelled { (e : Entry) × IsReady e ready.now }
    requires short { length ready.now ≤ body_limit }
    requires fits { length_of store.old + record_size ready.now ≤ limit_of store.old }
    ensures answer { (e : Entry) → IsReady e ready.now → AppendsBehind store.old e store.new result }
    ensures same { SamePlace store.old store.new }
    ensures any_moment { (e : Entry) → IsReady e ready.now → (h : Held) → Holds store.old h None →
        AllRecover D.Disk h (Some e) (disk_of store.old) (disk_of store.new) }
    ensures later { D.faults (disk_of store.old) ≤ D.faults (disk_of store.new) }
    ensures failed { OnFault result (Rose (D.faults (disk_of store.old)) (D.faults (disk_of store.new))) }
    ensures no_other { UnlessFault result (D.faults (disk_of store.new) ≡ D.faults (disk_of store.old)) }
{
    match store.append(ready) {
        Appended::Ok => Written::Ok,
        Appended::Failed => Written::Torn,
        Appended::Full(_) => unreachable!(),
        Appended::TooLong(_) => unreachable!(),
    }
}
