//! Putting a base in the place of all that a disk holds.
ghost use Rattle.std.specs.Prelude.{◌≡◌, ◌≤◌, ◌<◌, ◌^◌, [], None, false, IfOk, IfErr};
ghost use Rattle.sm_base.specs.declared.limits.TheConstants.{JOURNAL_LIMIT};
ghost use Rattle.sm_disk.specs.AllFiles.{LeavesBy};
ghost use Rattle.sm_disk.specs.OneFile.{Anyhow, Leaves};
ghost use Rattle.sm_journal.specs.Freshes as freshes;
ghost use Rattle.sm_journal.specs.Journals as journals;
ghost use Rattle.sm_journal.specs.Roots.{AllName};
ghost use Rattle.sm_journal.specs.declared.root.TheConstants.{ROOT};
ghost use Rattle.sm_journal.specs.Records.{size, AreWithin};
ghost use Rattle.sm_journal.specs.declared.format.Format.TheVariants as formats;
ghost use Rattle.sm_record.specs.Snapshots.{snapshot, HasSnapshot};
ghost use Rattle.sm_record.specs.declared.edition.Edition.TheVariants as editions;
ghost use Rattle.sm_store.specs.Held.{Held, only, HeldOr, HeldNew, AreTwo};
ghost use Rattle.sm_record.specs.declared.base.Base.{Base};
ghost use Rattle.sm_store.specs.Stores.{disk_of, format_of, limit_of, is_unsure, disk_in, Holds, IsOpened, IsStopped};

use crate::filling::{FillRefused, fill};
use crate::store::Store;
use sm_disk::Disk;
use sm_journal::{Format, Fresh, Journal, OpenRefused};
use sm_record::Base;
use std::alloc::Global;

/// The other of the two files.
fn other_than(file: u8) -> u8
    requires { file < 2 }
    ensures two { AreTwo file result }
    ensures file { result < 2 }
{
    if file == 0 { 1 } else { 0 }
}

/// Makes a file that has a base and no entries, and syncs it. An error hands the disk back.
fn make_over<D: Disk>(
    alloc: Global,
    disk: D,
    file: u8,
    limit: u64,
    base: &Base,
) -> Result<Journal<D>, OpenRefused<D>>
    requires file { file < 2 }
    requires limit { limit ≤ JOURNAL_LIMIT }
    requires spelled { HasSnapshot editions.Second base.now }
    requires within { AreWithin (snapshot editions.Second base.now) }
    requires short { size (snapshot editions.Second base.now) < 2 ^ 62 }
    ensures opened { IfOk result (journals.IsOpened file limit (snapshot editions.Second base.now)) }
    ensures format { IfOk result (λ journal. journals.format_of journal ≡ formats.Second) }
    ensures run { IfOk result (λ journal.
        Leaves file Anyhow Anyhow (D.sight disk) (D.sight (journals.disk_of journal))) }
    ensures run_err { IfErr result (λ refused.
        Leaves file Anyhow Anyhow (D.sight disk) (D.sight (disk_in refused))) }
    ensures no_other { IfOk result (λ journal. D.faults (journals.disk_of journal) ≡ D.faults disk) }
    ensures stopped { IfErr result (IsStopped D.Disk disk) }
{
    match Fresh::make(disk, file, limit) {
        Ok(fresh) => seal_over(alloc, fresh, base),
        Err(disk) => Err(OpenRefused::Failed(disk)),
    }
}

/// Fills a file with a base and syncs it. An error hands the disk back.
fn seal_over<D: Disk>(
    alloc: Global,
    mut fresh: Fresh<D>,
    base: &Base,
) -> Result<Journal<D>, OpenRefused<D>>
    requires makes { freshes.Makes fresh [] }
    requires sure { freshes.has_failed fresh ≡ false }
    requires spelled { HasSnapshot editions.Second base.now }
    requires within { AreWithin (snapshot editions.Second base.now) }
    requires short { size (snapshot editions.Second base.now) < 2 ^ 62 }
    ensures opened { IfOk result (journals.IsOpened (freshes.file_of fresh) (freshes.limit_of fresh)
        (snapshot editions.Second base.now)) }
    ensures format { IfOk result (λ journal. journals.format_of journal ≡ formats.Second) }
    ensures run { IfOk result (λ journal. Leaves (freshes.file_of fresh) Anyhow Anyhow
        (D.sight (freshes.disk_of fresh)) (D.sight (journals.disk_of journal))) }
    ensures run_err { IfErr result (λ refused. Leaves (freshes.file_of fresh) Anyhow Anyhow
        (D.sight (freshes.disk_of fresh)) (D.sight (disk_in refused))) }
    ensures no_other { IfOk result (λ journal.
        D.faults (journals.disk_of journal) ≡ D.faults (freshes.disk_of fresh)) }
    ensures stopped { IfErr result (IsStopped D.Disk (freshes.disk_of fresh)) }
{
    match fill(alloc, &mut fresh, base) {
        Ok(()) => match fresh.seal() {
            Ok(journal) => Ok(journal),
            Err(disk) => Err(OpenRefused::Failed(disk)),
        },
        Err(FillRefused::Failed) => Err(OpenRefused::Failed(fresh.close())),
        Err(FillRefused::Memory) => Err(OpenRefused::Memory(fresh.close())),
    }
}

/// Lets the root name the file of a journal that has a base and no entries. An error hands the disk back.
fn name_over<D: Disk>(
    mut journal: Journal<D>,
    file: u8,
    limit: u64,
) -> Result<Store<D>, OpenRefused<D>>
    requires two { file < 2 }
    requires in_file { journals.file_of journal ≡ file }
    requires under { journals.limit_of journal ≡ limit }
    requires sure { journals.is_unsure journal ≡ false }
    ensures opened { IfOk result (λ store. (base : Base) → HasSnapshot editions.Second base →
        journals.format_of journal ≡ formats.Second → journals.Stands journal (snapshot editions.Second base) None →
        IsOpened limit (only base) store) }
    ensures format { IfOk result (λ store. format_of store ≡ journals.format_of journal) }
    ensures named { IfOk result (λ store. AllName file (D.sight (disk_of store)).images) }
    ensures run { IfOk result (λ store.
        Leaves ROOT Anyhow Anyhow (D.sight (journals.disk_of journal)) (D.sight (disk_of store))) }
    ensures run_err { IfErr result (λ refused.
        Leaves ROOT Anyhow Anyhow (D.sight (journals.disk_of journal)) (D.sight (disk_in refused))) }
    ensures no_other { IfOk result (λ store. D.faults (disk_of store) ≡ D.faults (journals.disk_of journal)) }
    ensures stopped { IfErr result (IsStopped D.Disk (journals.disk_of journal)) }
{
    match journal.root(file) {
        Ok(()) => Ok(Store::over(journal, file, limit)),
        Err(_) => Err(OpenRefused::Failed(journal.close())),
    }
}

impl<D: Disk> Store<D> {
    /// Puts a base in the place of all that is held: it makes the other file with the base, each body as it is encoded,
    /// and seals it, and then lets the root name that file. It needs one sync of the file and one of the root. An
    /// error hands the disk back.
    pub fn checkpoint(self, alloc: Global, base: &Base) -> Result<Store<D>, OpenRefused<D>>
        requires sure { is_unsure self ≡ false }
        requires limit { limit_of self ≤ JOURNAL_LIMIT }
        requires spelled { HasSnapshot editions.Second base.now }
        requires within { AreWithin (snapshot editions.Second base.now) }
        requires short { size (snapshot editions.Second base.now) < 2 ^ 62 }
        ensures opened { IfOk result (IsOpened (limit_of self) (only base.now)) }
        ensures format { IfOk result (λ store. format_of store ≡ formats.Second) }

        // A crash at any moment of the call leaves each image with what was held or with the base alone, and a crash
        // behind it with the base alone.
        ensures any_moment { IfOk result (λ store. (h : Held) → Holds self h None →
            LeavesBy (HeldOr h (only base.now)) (HeldNew (only base.now))
            (D.sight (disk_of self)) (D.sight (disk_of store))) }

        // A refusal leaves each image with one of the two.
        ensures left { IfErr result (λ refused. (h : Held) → Holds self h None →
            LeavesBy (HeldOr h (only base.now)) (HeldOr h (only base.now))
            (D.sight (disk_of self)) (D.sight (disk_in refused))) }

        ensures no_other { IfOk result (λ store. D.faults (disk_of store) ≡ D.faults (disk_of self)) }
        ensures stopped { IfErr result (IsStopped D.Disk (disk_of self)) }
    {
        let (journal, file, limit) = self.parts();
        let other = other_than(file);
        match make_over(alloc, journal.close(), other, limit, base) {
            Ok(journal) => name_over(journal, other, limit),
            Err(refused) => Err(refused),
        }
    }
}
