//! The opening of a store that may stand on a base.
ghost use Rattle.std.specs.Prelude.{◌≡◌, ◌≤◌, ◌<◌, IfOk, IfErr};
ghost use Rattle.sm_base.specs.declared.limits.TheConstants.{JOURNAL_LIMIT};
ghost use Rattle.sm_disk.specs.Sight.{Image};
ghost use Rattle.sm_disk.specs.OneFile.{Leaves};
ghost use Rattle.sm_journal.specs.Journals as journals;
ghost use Rattle.sm_journal.specs.Openings.{ReadsAs};
ghost use Rattle.sm_journal.specs.Records.{place_behind, Short, SameList};
ghost use Rattle.sm_journal.specs.Roots.{AllName, named};
ghost use Rattle.sm_journal.specs.declared.format.Format.TheVariants as formats;
ghost use Rattle.sm_journal.specs.declared.root.TheConstants.{ROOT};
ghost use Rattle.sm_store.specs.Files.{nothing_held, HoldsAs, active};
ghost use Rattle.sm_store.specs.Openings.{held_of, OpensOver, IsUnloaded, ReadsActive, ListsStay, IsUnopened, IsUnopenedIn};
ghost use Rattle.sm_store.specs.Stores.{disk_of, file_of, format_of, bodies_edition, HoldsJust, IsOpened};
ghost use Rattle.sm_store.specs.Held as held;
ghost use Rattle.sm_store.specs.Held.{base_bodies};

use crate::entries::EntriesRefused;
use crate::loading::{Loaded, load};
use crate::store::Store;
use crate::unopened::{Front, Unopened};
use sm_disk::Disk;
use sm_journal::{Format, Journal, OpenRefused, Records, named_file};
use sm_record::Edition;
use std::alloc::Global;

/// The format of the bodies in a file of this format.
pub fn edition_of(format: Format) -> Edition
    ensures { result ≡ held.edition_of format }
{
    match format {
        Format::First => Edition::First,
        Format::Second => Edition::Second,
    }
}

/// The store of a journal that was opened with these bodies. An error hands the disk back.
fn open_over<D: Disk>(
    alloc: Global,
    journal: Journal<D>,
    file: u8,
    limit: u64,
    bodies: &Records,
) -> Result<(Store<D>, Loaded), Unopened<D>>
    requires two { file < 2 }
    requires opened { journals.IsOpened file limit bodies.now journal }
    ensures opened { IfOk result (OpensOver journal file bodies.now) }
    ensures refused { IfErr result (IsUnloaded journal bodies.now) }
{
    let format = journal.format();
    match load(alloc, edition_of(format), file, bodies) {
        Ok((loaded, damage)) => match damage {
            None => Ok((Store::over(journal, file, limit), loaded)),
            Some(damage) => {
                let front = Front {
                    format,
                    loaded,
                    damage,
                };
                Err(Unopened::NoEntry(journal.close(), front))
            }
        },
        Err(EntriesRefused::Damaged(damage)) => Err(Unopened::Refused(OpenRefused::Damaged(
            journal.close(),
            damage,
        ))),
        Err(EntriesRefused::Memory) => Err(Unopened::Refused(OpenRefused::Memory(journal.close()))),
    }
}

/// Opens the store in one of the two files, once the root of each image names it. An error hands the disk back.
fn open_named<D: Disk>(
    alloc: Global,
    disk: D,
    file: u8,
    limit: u64,
) -> Result<(Store<D>, Loaded), Unopened<D>>
    requires two { file < 2 }
    requires limit { (9 ≤ limit) × (limit ≤ JOURNAL_LIMIT) }
    requires named { AllName file (D.sight disk).images }
    ensures opened { IfOk result (λ opened. IsOpened limit (held_of opened.1) opened.0) }
    ensures file { IfOk result (λ opened. (file_of opened.0 ≡ file) × (opened.1.file ≡ file)) }
    ensures found { IfOk result (λ opened.
        ReadsAs file (HoldsAs (format_of opened.0) (held_of opened.1)) (D.sight disk)) }
    ensures gate { IfOk result (λ opened. opened.1.gate
        ≡ place_behind (base_bodies (bodies_edition opened.0) opened.1.base)) }
    ensures whole { IfOk result (λ opened. (s : Image) → (D.sight disk).reads s → Short (s file) →
        HoldsJust opened.0 nothing_held × (format_of opened.0 ≡ formats.Second)) }
    ensures any_moment { IfOk result (λ opened.
        Leaves file SameList SameList (D.sight disk) (D.sight (disk_of opened.0))) }
    ensures no_other { IfOk result (λ opened. D.faults (disk_of opened.0) ≡ D.faults disk) }
    ensures refused { IfErr result (IsUnopenedIn D.Disk file disk) }
{
    match Journal::open(alloc, disk, file, limit, Format::Second) {
        Ok((journal, bodies)) => open_over(alloc, journal, file, limit, &bodies),
        Err(refused) => Err(Unopened::Refused(refused)),
    }
}

impl<D: Disk> Store<D> {
    /// Opens the store of a disk, and gives what it holds. It syncs the root first, and opens the file that the root
    /// names: file 1 where its first byte is 1, and else file 0. It syncs that file, mends what follows its records,
    /// and makes it new in the second format where it has at most nine bytes. A file that is longer has a base, or
    /// none, and entries. It is damaged where it is outside the grammar; or at its first gate, where its first bodies
    /// are of rows and no base's spelling; or where a body behind them is no entry's: the place is the byte of the
    /// record's gate, or 0 for the header, and the number is that of the records before it. What is before a body that
    /// is no entry's spelling is handed over, since a fault of it is earlier in the file. An error hands the disk back.
    /// The file's bytes are kept once until the base and the entries are read from them.
    pub fn open(alloc: Global, mut disk: D, limit: u64) -> Result<(Store<D>, Loaded), Unopened<D>>
        requires { (9 ≤ limit) × (limit ≤ JOURNAL_LIMIT) }
        ensures opened { IfOk result (λ opened. IsOpened limit (held_of opened.1) opened.0) }
        ensures found { IfOk result (λ opened.
            ReadsActive (HoldsAs (format_of opened.0) (held_of opened.1)) (D.sight disk)) }

        // Which file it is, and where its first entry begins.
        ensures file { IfOk result (λ opened. opened.1.file ≡ file_of opened.0) }
        ensures root { IfOk result (λ opened. ReadsAs ROOT (λ bytes. named bytes ≡ file_of opened.0) (D.sight disk)) }
        ensures gate { IfOk result (λ opened. opened.1.gate
            ≡ place_behind (base_bodies (bodies_edition opened.0) opened.1.base)) }

        // A file that was made new is the header of the second format and the closed gate.
        ensures whole { IfOk result (λ opened. (s : Image) → (D.sight disk).reads s → Short (active s) →
            HoldsJust opened.0 nothing_held × (format_of opened.0 ≡ formats.Second)) }

        // A crash at any moment of the call leaves each image with the list of records that it had in the file that its
        // root names, and with the other files.
        ensures any_moment { IfOk result (λ opened. ListsStay (D.sight disk) (D.sight (disk_of opened.0))) }

        ensures no_other { IfOk result (λ opened. D.faults (disk_of opened.0) ≡ D.faults disk) }
        ensures refused { IfErr result (IsUnopened D.Disk disk) }
    {
        match named_file(&mut disk) {
            Ok(file) => open_named(alloc, disk, file, limit),
            Err(_) => Err(Unopened::Refused(OpenRefused::Failed(disk))),
        }
    }
}
