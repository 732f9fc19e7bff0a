//! A file that is made anew beside the one that counts.
ghost use Rattle.std.specs.Prelude.{◌≡◌, ◌<◌, ◌≤◌, ◌+◌, ◌^◌, ℕ, List, [], ◌∷◌, ◌++◌, true, false, length, IfOk, IfErr, OnOk, OnErr};
ghost use Rattle.sm_base.specs.declared.limits.TheConstants.{JOURNAL_LIMIT};
ghost use Rattle.sm_base.specs.Faults.{Rose};
ghost use Rattle.sm_disk.specs.Sight.{Image};

use crate::device::{begin, extend};
use crate::format::Format;
use crate::journal::Journal;
use crate::lengths::{HEADER_SIZE, record_size};
use sm_disk::{Disk, DiskFailed};

/// A file of the second format that is being made, record by record. Before it is sealed a crash may leave anything of
/// it, so it is one that does not count. The other files stay.
#[derive(Drop)]
pub struct Fresh<D: Disk> {
    disk: D,
    file: u8,
    limit: u64,
    gate: u64,
    failed: bool,
    ghost in_range: { file < 3 },
    ghost bounded: { limit < 2 ^ 62 },
    ghost fits: { gate < 2 ^ 63 },
    ghost ends: { (s : Image) → (D.sight disk).reads s → failed ≡ false → length (s file) ≡ gate + 1 },
}

impl<D: Disk> Fresh<D> {
    ghost use Rattle.sm_disk.specs.OneFile.{Anyhow, Leaves};
    ghost use Rattle.sm_disk.specs.Faults.{HasCause};
    ghost use Rattle.sm_journal.specs.Records.{body_limit, record_size};
    ghost use Rattle.sm_journal.specs.Journals as journals;
    ghost use Rattle.sm_journal.specs.Openings.{Equal};
    ghost use Rattle.sm_journal.specs.Freshes.{disk_of, file_of, limit_of, length_of, has_failed, Makes, SamePlace, IsBegun};

    /// Begins a file without records, whatever it holds. An error hands the disk back. It takes no memory.
    pub fn make(mut disk: D, file: u8, limit: u64) -> Result<Fresh<D>, D>
        requires file { file < 3 }
        requires limit { limit ≤ JOURNAL_LIMIT }
        ensures begun { IfOk result (λ fresh. IsBegun file limit [] fresh) }

        // A crash at any moment of the call leaves the other files.
        ensures any_moment { IfOk result (λ fresh.
            Leaves file Anyhow Anyhow (D.sight disk) (D.sight (disk_of fresh))) }
        ensures any_moment_err { IfErr result (λ now. Leaves file Anyhow Anyhow (D.sight disk) (D.sight now)) }

        ensures no_other { IfOk result (λ fresh. D.faults (disk_of fresh) ≡ D.faults disk) }
        ensures failed { IfErr result (λ now. (D.faults disk ≤ D.faults now) × Rose (D.faults disk) (D.faults now)) }
    {
        match begin(&mut disk, file, Format::Second) {
            Ok(()) => Ok(Fresh {
                disk,
                file,
                limit,
                gate: HEADER_SIZE,
                failed: false,
            }),
            Err(_) => Err(disk),
        }
    }

    /// Adds a record with this body, its gate open. After a failure no more can be added, and it can't be sealed. It
    /// takes no memory.
    pub fn add(&mut self, body: &[u8]) -> Result<(), DiskFailed>
        requires sure { has_failed self.old ≡ false }
        requires within { length body.now ≤ body_limit }
        requires room { length_of self.old + record_size body.now ≤ 2 ^ 63 }
        ensures ok { OnOk result ((has_failed self.new ≡ false)
            × (length_of self.new ≡ length_of self.old + record_size body.now)
            × ((bodies : List (List ℕ)) → Makes self.old bodies → Makes self.new (bodies ++ body.now ∷ []))) }
        ensures err { OnErr result (has_failed self.new ≡ true) }
        ensures same { SamePlace self.old self.new }

        // A crash at any moment of the call leaves the other files.
        ensures any_moment { Leaves (file_of self.old) Anyhow Anyhow
            (D.sight (disk_of self.old)) (D.sight (disk_of self.new)) }

        ensures cause { HasCause (D.faults (disk_of self.old)) (D.faults (disk_of self.new)) result }
    {
        self.failed = true;
        extend(&mut self.disk, self.file, self.gate, body)?;
        self.gate += record_size(body);
        self.failed = false;
        Ok(())
    }

    /// Syncs the file, so that each crash leaves exactly its records, and gives the journal of it. An error hands the
    /// disk back. It takes no memory.
    pub fn seal(self) -> Result<Journal<D>, D>
        requires { has_failed self ≡ false }
        ensures sealed { IfOk result (λ journal. (bodies : List (List ℕ)) → Makes self bodies →
            journals.IsOpened (file_of self) (limit_of self) bodies journal × journals.HoldsJust journal bodies) }
        ensures format { IfOk result (λ journal. journals.format_of journal ≡ Format.Second) }
        ensures file { IfOk result (λ journal. journals.file_of journal ≡ file_of self) }

        // It changes nothing.
        ensures any_moment { IfOk result (λ journal.
            Leaves (file_of self) Equal Equal (D.sight (disk_of self)) (D.sight (journals.disk_of journal))) }
        ensures any_moment_err { IfErr result (λ now.
            Leaves (file_of self) Equal Equal (D.sight (disk_of self)) (D.sight now)) }

        ensures no_other { IfOk result (λ journal. D.faults (journals.disk_of journal) ≡ D.faults (disk_of self)) }
        ensures failed { IfErr result (λ now. (D.faults (disk_of self) ≤ D.faults now)
            × Rose (D.faults (disk_of self)) (D.faults now)) }
    {
        let Fresh {
            mut disk,
            file,
            limit,
            gate,
            ..
        } = self;
        match disk.sync(file) {
            Ok(()) => Ok(Journal::at_rest(disk, file, Format::Second, limit, gate)),
            Err(_) => Err(disk),
        }
    }

    /// The disk again, at any time. It takes no memory.
    pub fn close(self) -> D
        ensures { result ≡ disk_of self }
    {
        let Fresh { disk, .. } = self;
        disk
    }
}
