//! The journal.
ghost use Rattle.std.specs.Prelude.{◌≡◌, ◌<◌, ◌≤◌, ◌+◌, ◌^◌, ℕ, List, [], ◌∷◌, ◌++◌, true, false, Option, None, Some, length, OnOk, OnErr, IsOk};
ghost use Rattle.sm_disk.specs.Sight.{Image};
ghost use Rattle.sm_journal.specs.declared.tail.Tail.TheVariants.{Sure, Body};

use crate::answers::Appended;
use crate::device::{cut_behind, set_gate, stage};
use crate::format::Format;
use crate::parse::BODY_LIMIT;
use crate::root::set_root;
use crate::tail::Tail;
use sm_disk::{Disk, DiskFailed};

/// A list of records in one file of a disk. It keeps the place of the gate behind its records, and how sure it is of
/// what stands there.
#[derive(Drop)]
pub struct Journal<D: Disk> {
    disk: D,
    file: u8,
    format: Format,
    limit: u64,
    gate: u64,
    tail: Tail,
    ghost in_range: { file < 3 },
    ghost bounded: { limit < 2 ^ 62 },
    ghost fits: { gate < 2 ^ 63 },
    ghost long: { (s : Image) → (D.sight disk).reads s → gate + 1 ≤ length (s file) },
    ghost ends: { (s : Image) → (D.sight disk).reads s → tail ≡ Sure → length (s file) ≡ gate + 1 },
}

impl<D: Disk> Journal<D> {
    ghost use Rattle.sm_journal.specs.Journals.{disk_of, file_of, format_of, length_of, length_with, is_unsure, FitsBothLimits, SamePlace, Stands, HoldsJust, AppendsAs, AppendStays, LeavesEither, IsOpened};
    ghost use Rattle.sm_journal.specs.Records.{front, place_behind, AreWithin, AtRest};
    ghost use Rattle.sm_journal.specs.Making.{IsIdle};
    ghost use Rattle.sm_journal.specs.Roots.{BeginsWith};
    ghost use Rattle.sm_journal.specs.declared.root.TheConstants.{ROOT};
    ghost use Rattle.sm_journal.specs.Lengths.{ReadsLength};
    ghost use Rattle.sm_disk.specs.OneFile.{EachHas, Anyhow, Leaves};
    ghost use Rattle.sm_base.specs.Faults.{Rose};
    ghost use Rattle.sm_disk.specs.Faults.{HasCause};

    /// A journal whose file ends behind its gate.
    pub(crate) fn at_rest(disk: D, file: u8, format: Format, limit: u64, gate: u64) -> Journal<D>
        requires in_range { file < 3 }
        requires bounded { limit < 2 ^ 62 }
        requires fits { gate < 2 ^ 63 }
        requires place { ReadsLength file (gate + 1) (D.sight disk) }
        ensures disk { disk_of result ≡ disk }
        ensures file { file_of result ≡ file }
        ensures format { format_of result ≡ format }
        ensures opened { (bodies : List (List ℕ)) → gate ≡ place_behind bodies → AreWithin bodies →
            EachHas file (AtRest (front format bodies)) (D.sight disk).images →
            IsOpened file limit bodies result }
    {
        Journal {
            disk,
            file,
            format,
            limit,
            gate,
            tail: Tail::Sure,
        }
    }

    /// Adds a record with this body. At `Ok` every later crash keeps it. At `Failed` the list is as before, and the
    /// tail is unsure: a crash leaves the list, or the list with this body. `TooLong` tells the body's length, and
    /// `Full` the length that the file would have. It takes no memory.
    pub fn append(&mut self, body: &[u8]) -> Appended
        requires { is_unsure self.old ≡ false }
        ensures answer { AppendsAs self.old body.now self.new result }
        ensures same { SamePlace self.old self.new }

        // A crash at any moment of the call leaves the list, or the list with this body, and the other files.
        ensures any_moment { (bodies : List (List ℕ)) → Stands self.old bodies None →
            LeavesEither bodies (Some body.now) self.old self.new }

        ensures later { D.faults (disk_of self.old) ≤ D.faults (disk_of self.new) }
        ensures failed { result ≡ Appended.Failed →
            Rose (D.faults (disk_of self.old)) (D.faults (disk_of self.new)) }
        ensures no_other { AppendStays result (D.faults (disk_of self.old)) (D.faults (disk_of self.new)) }
    {
        if body.len() > BODY_LIMIT {
            return Appended::TooLong(body.len() as u64);
        }
        let length = self.gate + 6 + body.len() as u64;
        if length > self.limit {
            return Appended::Full(length);
        }
        match self.write(body) {
            Ok(()) => Appended::Ok,
            Err(DiskFailed) => Appended::Failed,
        }
    }

    /// Writes a record behind the gate and opens it.
    fn write(&mut self, body: &[u8]) -> Result<(), DiskFailed>
        requires sure { is_unsure self.old ≡ false }
        requires room { FitsBothLimits self.old body.now }
        ensures ok { OnOk result ((is_unsure self.new ≡ false) × ((bodies : List (List ℕ)) →
            Stands self.old bodies None →
            Stands self.new (bodies ++ body.now ∷ []) None × HoldsJust self.new (bodies ++ body.now ∷ []))) }
        ensures err { OnErr result ((is_unsure self.new ≡ true) × ((bodies : List (List ℕ)) →
            Stands self.old bodies None → Stands self.new bodies (Some body.now))) }
        ensures length { OnOk result (length_of self.new ≡ length_with self.old body.now) }
        ensures length_err { OnErr result (length_of self.new ≡ length_of self.old) }
        ensures same { SamePlace self.old self.new }
        ensures any_moment { (bodies : List (List ℕ)) → Stands self.old bodies None →
            LeavesEither bodies (Some body.now) self.old self.new }
        ensures cause { HasCause (D.faults (disk_of self.old)) (D.faults (disk_of self.new)) result }
    {
        self.tail = Tail::Body;
        stage(&mut self.disk, self.file, self.gate, body)?;
        self.tail = Tail::Gate;
        set_gate(&mut self.disk, self.file, self.gate, 1)?;
        self.gate += 5 + body.len() as u64;
        self.tail = Tail::Sure;
        Ok(())
    }

    /// Makes the tail sure: afterwards each crash leaves exactly the list. Where the disk fails the tail stays unsure.
    /// A tail that is sure is left as it is. It takes no memory.
    pub fn mend(&mut self) -> Result<(), DiskFailed>
        ensures ok { OnOk result ((is_unsure self.new ≡ false) × ((bodies : List (List ℕ))
            (failed : Option (List ℕ)) → Stands self.old bodies failed → Stands self.new bodies None)) }
        ensures err { OnErr result ((is_unsure self.new ≡ true) × ((bodies : List (List ℕ))
            (failed : Option (List ℕ)) → Stands self.old bodies failed → Stands self.new bodies failed)) }
        ensures left { is_unsure self.old ≡ false → IsOk result × (self.new ≡ self.old) }
        ensures same { SamePlace self.old self.new }
        ensures length { length_of self.new ≡ length_of self.old }

        // A crash at any moment of the call leaves what it might have left before, and the other files.
        ensures any_moment { (bodies : List (List ℕ)) (failed : Option (List ℕ)) →
            Stands self.old bodies failed → LeavesEither bodies failed self.old self.new }

        ensures cause { HasCause (D.faults (disk_of self.old)) (D.faults (disk_of self.new)) result }
    {
        if self.tail == Tail::Sure {
            return Ok(());
        }
        self.close_gate()?;
        self.cut_tail()?;
        Ok(())
    }

    /// Closes the gate, if it is unsure.
    fn close_gate(&mut self) -> Result<(), DiskFailed>
        requires { is_unsure self.old ≡ true }
        ensures ok { OnOk result (self.new.tail ≡ Body) }
        ensures unsure { is_unsure self.new ≡ true }
        ensures stands { (bodies : List (List ℕ)) (failed : Option (List ℕ)) →
            Stands self.old bodies failed → Stands self.new bodies failed }
        ensures same { SamePlace self.old self.new }
        ensures length { length_of self.new ≡ length_of self.old }
        ensures any_moment { (bodies : List (List ℕ)) (failed : Option (List ℕ)) →
            Stands self.old bodies failed → LeavesEither bodies failed self.old self.new }
        ensures cause { HasCause (D.faults (disk_of self.old)) (D.faults (disk_of self.new)) result }
    {
        match self.tail {
            Tail::Gate => {
                set_gate(&mut self.disk, self.file, self.gate, 0)?;
                self.tail = Tail::Body;
                Ok(())
            }
            Tail::Body | Tail::Sure => Ok(()),
        }
    }

    /// Cuts what stands behind the closed gate.
    fn cut_tail(&mut self) -> Result<(), DiskFailed>
        requires { self.old.tail ≡ Body }
        ensures ok { OnOk result ((is_unsure self.new ≡ false) × ((bodies : List (List ℕ))
            (failed : Option (List ℕ)) → Stands self.old bodies failed → Stands self.new bodies None)) }
        ensures err { OnErr result ((is_unsure self.new ≡ true) × ((bodies : List (List ℕ))
            (failed : Option (List ℕ)) → Stands self.old bodies failed → Stands self.new bodies failed)) }
        ensures same { SamePlace self.old self.new }
        ensures length { length_of self.new ≡ length_of self.old }
        ensures any_moment { (bodies : List (List ℕ)) (failed : Option (List ℕ)) →
            Stands self.old bodies failed → LeavesEither bodies failed self.old self.new }
        ensures cause { HasCause (D.faults (disk_of self.old)) (D.faults (disk_of self.new)) result }
    {
        cut_behind(&mut self.disk, self.file, self.gate)?;
        self.tail = Tail::Sure;
        Ok(())
    }

    /// Writes the root's first byte, which names a file, and syncs the root. The journal stays as it is. It takes no
    /// memory.
    pub fn root(&mut self, byte: u8) -> Result<(), DiskFailed>
        requires sure { is_unsure self.old ≡ false }
        requires other { file_of self.old < ROOT }
        ensures set { OnOk result (EachHas ROOT (BeginsWith byte) (D.sight (disk_of self.new)).images) }
        ensures stands { (bodies : List (List ℕ)) (failed : Option (List ℕ)) →
            Stands self.old bodies failed → Stands self.new bodies failed }
        ensures just { (bodies : List (List ℕ)) → HoldsJust self.old bodies → HoldsJust self.new bodies }
        ensures same { SamePlace self.old self.new }
        ensures left_sure { is_unsure self.new ≡ false }
        ensures length { length_of self.new ≡ length_of self.old }

        // A crash at any moment of the call leaves any root, and the other files.
        ensures any_moment { Leaves ROOT Anyhow Anyhow (D.sight (disk_of self.old)) (D.sight (disk_of self.new)) }

        ensures cause { HasCause (D.faults (disk_of self.old)) (D.faults (disk_of self.new)) result }
    {
        set_root(&mut self.disk, byte)?;
        Ok(())
    }

    /// Whether the last write may have failed in part. Then it is mended before the next one.
    pub fn is_unsure(&self) -> bool
        ensures { result ≡ is_unsure self.now }
    {
        self.tail != Tail::Sure
    }

    /// The format of its file. It takes no memory.
    pub fn format(&self) -> Format
        ensures { result ≡ format_of self.now }
    {
        self.format
    }

    /// The file's length: 9, and 5 and its length for each body.
    pub fn length(&self) -> u64
        ensures { result ≡ length_of self.now }
    {
        self.gate + 1
    }

    /// The disk again. A list that is sure stays in its file.
    pub fn close(self) -> D
        ensures disk { result ≡ disk_of self }
        ensures idle { is_unsure self ≡ false → (bodies : List (List ℕ)) → Stands self bodies None →
            IsIdle (file_of self) (format_of self) bodies (D.sight result) }
    {
        let Journal { disk, .. } = self;
        disk
    }
}
