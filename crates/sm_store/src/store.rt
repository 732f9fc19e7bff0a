//! A store whose entries may stand on a base.
ghost use Rattle.std.specs.Prelude.{◌≡◌, ◌≤◌, ◌<◌, ℕ, Option, None, Some, true, false, length, OnOk, OnErr, IsOk};
ghost use Rattle.sm_base.specs.Faults.{Rose};
ghost use Rattle.sm_disk.specs.Faults.{HasCause};
ghost use Rattle.sm_journal.specs.Journals as journals;
ghost use Rattle.sm_journal.specs.Records.{body_limit};
ghost use Rattle.sm_journal.specs.declared.format.Format.TheVariants as formats;
ghost use Rattle.sm_model.specs.declared.entry.Entry.{Entry};

use sm_base::Bytes;
use sm_disk::{Disk, DiskFailed};
use sm_journal::{Appended, Format, Journal};

/// A list of entries on a disk, which may stand on a base. They are in the one of two files that the root names.
#[derive(Drop)]
pub struct Store<D: Disk> {
    journal: Journal<D>,
    file: u8,
    limit: u64,
    ghost two: { file < 2 },
    ghost in_file: { journals.file_of journal ≡ file },
    ghost under: { journals.limit_of journal ≡ limit },
}

impl<D: Disk> Store<D> {
    ghost use Rattle.sm_store.specs.Held.{Held};
    ghost use Rattle.sm_store.specs.Stores.{disk_of, format_of, limit_of, is_unsure, length_of, Holds};
    ghost use Rattle.sm_store.specs.Appends.{IsReady, AppendsAs, SamePlace, LeavesEither, AllRecover, IsIdle};

    /// A journal of bodies as a store, in the file that the root names.
    pub(crate) fn over(journal: Journal<D>, file: u8, limit: u64) -> Store<D>
        requires two { file < 2 }
        requires in_file { journals.file_of journal ≡ file }
        requires under { journals.limit_of journal ≡ limit }
        ensures journal { result.journal ≡ journal }
        ensures file { result.file ≡ file }
        ensures limit { result.limit ≡ limit }
    {
        Store {
            journal,
            file,
            limit,
        }
    }

    /// The journal, its file and its limit.
    pub(crate) fn parts(self) -> (Journal<D>, u8, u64)
        ensures journal { result.0 ≡ self.journal }
        ensures file { result.1 ≡ self.file }
        ensures limit { result.2 ≡ self.limit }
        ensures two { result.1 < 2 }
    {
        let Store {
            journal,
            file,
            limit,
            ..
        } = self;
        (journal, file, limit)
    }

    /// Adds the entry of this spelling, in a file of the second format. At `Ok` every later crash keeps it. At `Failed`
    /// the list is as before, and the tail is unsure: a crash leaves the list, or the list with this entry. `Full`
    /// tells the length that the file would have. It never answers `TooLong`, and takes no memory.
    pub fn append(&mut self, ready: &Bytes) -> Appended
        requires sure { is_unsure self.old ≡ false }
        requires format { format_of self.old ≡ formats.Second }
        requires spelled { (e : Entry) × IsReady e ready.now }
        requires within { length ready.now ≤ body_limit }
        ensures answer { (e : Entry) → IsReady e ready.now → AppendsAs self.old e self.new result }
        ensures same { SamePlace self.old self.new }

        // A crash at any moment of the call leaves what is held, or it with this entry, and the other files.
        ensures any_moment { (e : Entry) → IsReady e ready.now → (h : Held) → Holds self.old h None →
            LeavesEither h (Some e) self.old self.new }
        ensures recovered { (e : Entry) → IsReady e ready.now → (h : Held) → Holds self.old h None →
            AllRecover h (Some e) self.old self.new }

        ensures later { D.faults (disk_of self.old) ≤ D.faults (disk_of self.new) }
        ensures failed { result ≡ Appended.Failed →
            Rose (D.faults (disk_of self.old)) (D.faults (disk_of self.new)) }
        ensures no_other { journals.AppendStays result (D.faults (disk_of self.old)) (D.faults (disk_of self.new)) }
    {
        self.journal.append(ready.as_slice())
    }

    /// Makes the tail sure: afterwards each crash leaves exactly what is held. Where the disk fails the tail stays
    /// unsure. A tail that is sure is left as it is. It takes no memory.
    pub fn mend(&mut self) -> Result<(), DiskFailed>
        ensures ok { OnOk result ((is_unsure self.new ≡ false) × ((h : Held) (failed : Option Entry) →
            Holds self.old h failed → Holds self.new h None)) }
        ensures err { OnErr result ((is_unsure self.new ≡ true) × ((h : Held) (failed : Option Entry) →
            Holds self.old h failed → Holds self.new h failed)) }
        ensures left { is_unsure self.old ≡ false → IsOk result × (self.new ≡ self.old) }
        ensures same { SamePlace self.old self.new }
        ensures length { length_of self.new ≡ length_of self.old }

        // A crash at any moment of the call leaves what it might have left before, and the other files.
        ensures any_moment { (h : Held) (failed : Option Entry) → Holds self.old h failed →
            LeavesEither h failed self.old self.new }
        ensures recovered { (h : Held) (failed : Option Entry) → Holds self.old h failed →
            AllRecover h failed self.old self.new }

        ensures cause { HasCause (D.faults (disk_of self.old)) (D.faults (disk_of self.new)) result }
    {
        self.journal.mend()?;
        Ok(())
    }

    /// Whether the last write may have failed in part. Then it is mended before the next one.
    pub fn is_unsure(&self) -> bool
        ensures { result ≡ is_unsure self.now }
    {
        self.journal.is_unsure()
    }

    /// The format of the file. Entries are added in the second alone, in which a checkpoint makes a file. It takes no
    /// memory.
    pub fn format(&self) -> Format
        ensures { result ≡ format_of self.now }
    {
        self.journal.format()
    }

    /// The file's length: 9, and 5 and its length for each body of the base and each entry.
    pub fn length(&self) -> u64
        ensures { result ≡ length_of self.now }
    {
        self.journal.length()
    }

    /// The disk again. What is held stays on it where the tail is sure.
    pub fn close(self) -> D
        ensures disk { result ≡ disk_of self }
        ensures idle { is_unsure self ≡ false → (h : Held) → Holds self h None → IsIdle h (D.sight result) }
    {
        let Store { journal, .. } = self;
        journal.close()
    }
}
