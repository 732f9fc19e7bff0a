//! The opening of a journal.
ghost use Rattle.std.specs.Prelude.{◌≡◌, ◌<◌, ◌≤◌, ◌+◌, ◌^◌, ℕ, List, [], length, IfOk, IfErr};
ghost use Rattle.sm_base.specs.declared.limits.TheConstants.{JOURNAL_LIMIT};
ghost use Rattle.sm_disk.specs.Sight.{Image};
ghost use Rattle.sm_disk.specs.OneFile.{EachHas, Leaves};
ghost use Rattle.sm_base.specs.Faults.{Rose};
ghost use Rattle.sm_journal.specs.Records.{Loose, AtRest, Short, Whole, Recovers, SameList};
ghost use Rattle.sm_journal.specs.Lengths.{ReadsLength};
ghost use Rattle.sm_journal.specs.Journals.{disk_of, format_of, HoldsJust, IsOpened};
ghost use Rattle.sm_journal.specs.Openings.{ReadsAs, FailsFrom, IsRefusedAs, IsRefused};
ghost use Rattle.sm_journal.specs.Places.{bodies_at, AreInside};

use crate::answers::OpenRefused;
use crate::device::{LoadRefused, cut_behind, load, make};
use crate::format::Format;
use crate::journal::Journal;
use crate::lengths::HEADER_SIZE;
use crate::parse::{ParseRefused, Parsed, parse};
use crate::records::{Place, Records};
use sm_disk::Disk;
use std::alloc::Global;

/// Cuts what stands behind the gate, if anything does. An error hands the disk back.
fn settle<D: Disk>(mut disk: D, file: u8, gate: u64, bytes: &[u8]) -> Result<D, D>
    requires file { file < 3 }
    requires fits { gate < 2 ^ 63 }
    requires within { gate + 1 ≤ length bytes.now }
    requires place { ReadsLength file (length bytes.now) (D.sight disk) }
    ensures length { IfOk result (λ now. ReadsLength file (gate + 1) (D.sight now)) }
    ensures rest { IfOk result (λ now. (before : List ℕ) → gate ≡ length before → Loose before bytes.now →
        EachHas file (λ b. b ≡ bytes.now) (D.sight disk).images →
        EachHas file (AtRest before) (D.sight now).images) }
    ensures run { IfOk result (λ now. (before : List ℕ) → gate ≡ length before → Loose before bytes.now →
        EachHas file (λ b. b ≡ bytes.now) (D.sight disk).images →
        Leaves file (λ _. Loose before) (λ _. Loose before) (D.sight disk) (D.sight now)) }
    ensures run_err { IfErr result (λ now. (before : List ℕ) → gate ≡ length before → Loose before bytes.now →
        EachHas file (λ b. b ≡ bytes.now) (D.sight disk).images →
        Leaves file (λ _. Loose before) (λ _. Loose before) (D.sight disk) (D.sight now)) }
    ensures no_other { IfOk result (λ now. D.faults now ≡ D.faults disk) }
    ensures failed { IfErr result (λ now. (D.faults disk ≤ D.faults now) × Rose (D.faults disk) (D.faults now)) }
{
    if bytes.len() as u64 == gate + 1 {
        return Ok(disk);
    }
    match cut_behind(&mut disk, file, gate) {
        Ok(()) => Ok(disk),
        Err(_) => Err(disk),
    }
}

/// The file as a journal without records. An error hands the disk back.
fn emptied<D: Disk>(mut disk: D, file: u8, format: Format) -> Result<D, D>
    requires { file < 3 }
    ensures length { IfOk result (λ now. ReadsLength file 9 (D.sight now)) }
    ensures whole { IfOk result (λ now. EachHas file (Whole format []) (D.sight now).images) }
    ensures run { IfOk result (λ now. EachHas file Short (D.sight disk).images →
        Leaves file (λ _. Short) (λ _. Short) (D.sight disk) (D.sight now)) }
    ensures run_err { IfErr result (λ now. EachHas file Short (D.sight disk).images →
        Leaves file (λ _. Short) (λ _. Short) (D.sight disk) (D.sight now)) }
    ensures no_other { IfOk result (λ now. D.faults now ≡ D.faults disk) }
    ensures failed { IfErr result (λ now. (D.faults disk ≤ D.faults now) × Rose (D.faults disk) (D.faults now)) }
{
    match make(&mut disk, file, format) {
        Ok(()) => Ok(disk),
        Err(_) => Err(disk),
    }
}

/// The journal of a file of at most nine bytes, which is made new in this format.
fn open_new<D: Disk>(
    alloc: Global,
    disk: D,
    file: u8,
    limit: u64,
    format: Format,
) -> Result<(Journal<D>, Records), OpenRefused<D>>
    requires file { file < 3 }
    requires limit { limit < 2 ^ 62 }
    ensures opened { IfOk result (λ opened. IsOpened file limit opened.1 opened.0) }
    ensures whole { IfOk result (λ opened. HoldsJust opened.0 []) }
    ensures none { IfOk result (λ opened. opened.1 ≡ []) }
    ensures format { IfOk result (λ opened. format_of opened.0 ≡ format) }
    ensures run { IfOk result (λ opened. EachHas file Short (D.sight disk).images →
        Leaves file (λ _. Short) (λ _. Short) (D.sight disk) (D.sight (disk_of opened.0))) }
    ensures no_other { IfOk result (λ opened. D.faults (disk_of opened.0) ≡ D.faults disk) }
    ensures failed { IfErr result (FailsFrom D.Disk file Short (λ _. Short) disk) }
{
    match emptied(disk, file, format) {
        Ok(disk) => {
            let journal = Journal::at_rest(disk, file, format, limit, HEADER_SIZE);
            Ok((journal, Records::empty(alloc)))
        }
        Err(disk) => Err(OpenRefused::Failed(disk)),
    }
}

/// The journal of a file of these bytes, of which each image has them, and the places of its bodies.
fn open_old<D: Disk>(
    alloc: Global,
    disk: D,
    file: u8,
    limit: u64,
    bytes: &[u8],
) -> Result<(Journal<D>, Vec<Place>), OpenRefused<D>>
    requires file { file < 3 }
    requires limit { limit < 2 ^ 62 }
    requires long { 9 < length bytes.now }
    requires fits { length bytes.now < 2 ^ 63 }
    requires place { ReadsLength file (length bytes.now) (D.sight disk) }
    ensures inside { IfOk result (λ opened. AreInside bytes.now opened.1.items) }
    ensures opened { IfOk result (λ opened. EachHas file (λ b. b ≡ bytes.now) (D.sight disk).images →
        IsOpened file limit (bodies_at bytes.now opened.1.items) opened.0) }
    ensures list { IfOk result (λ opened.
        Recovers bytes.now (format_of opened.0) (bodies_at bytes.now opened.1.items)) }
    ensures run { IfOk result (λ opened. EachHas file (λ b. b ≡ bytes.now) (D.sight disk).images →
        Leaves file SameList SameList (D.sight disk) (D.sight (disk_of opened.0))) }
    ensures no_other { IfOk result (λ opened. D.faults (disk_of opened.0) ≡ D.faults disk) }
    ensures refused { IfErr result (IsRefusedAs D.Disk file bytes.now disk) }
{
    match parse(alloc, bytes) {
        Ok(
            Parsed {
                format,
                places,
                gate,
            },
        ) => match settle(disk, file, gate, bytes) {
            Ok(disk) => Ok((Journal::at_rest(disk, file, format, limit, gate), places)),
            Err(disk) => Err(OpenRefused::Failed(disk)),
        },
        Err(ParseRefused::Damaged(damage)) => Err(OpenRefused::Damaged(disk, damage)),
        Err(ParseRefused::Memory) => Err(OpenRefused::Memory(disk)),
    }
}

/// The journal of a file of these bytes, of which each image has them, and its bodies in them.
fn open_kept<D: Disk>(
    alloc: Global,
    disk: D,
    file: u8,
    limit: u64,
    bytes: Vec<u8>,
) -> Result<(Journal<D>, Records), OpenRefused<D>>
    requires file { file < 3 }
    requires limit { limit < 2 ^ 62 }
    requires long { 9 < length bytes.items }
    requires fits { length bytes.items < 2 ^ 63 }
    requires place { ReadsLength file (length bytes.items) (D.sight disk) }
    ensures opened { IfOk result (λ opened. EachHas file (λ b. b ≡ bytes.items) (D.sight disk).images →
        IsOpened file limit opened.1 opened.0) }
    ensures list { IfOk result (λ opened. Recovers bytes.items (format_of opened.0) opened.1) }
    ensures run { IfOk result (λ opened. EachHas file (λ b. b ≡ bytes.items) (D.sight disk).images →
        Leaves file SameList SameList (D.sight disk) (D.sight (disk_of opened.0))) }
    ensures no_other { IfOk result (λ opened. D.faults (disk_of opened.0) ≡ D.faults disk) }
    ensures refused { IfErr result (IsRefusedAs D.Disk file bytes.items disk) }
{
    match open_old(alloc, disk, file, limit, bytes.as_slice()) {
        Ok((journal, places)) => Ok((journal, Records::over(bytes, places))),
        Err(refused) => Err(refused),
    }
}

/// The journal of a file of these bytes, of which each image has them. One of at most nine is made new in this format.
fn open_loaded<D: Disk>(
    alloc: Global,
    disk: D,
    file: u8,
    limit: u64,
    format: Format,
    bytes: Vec<u8>,
) -> Result<(Journal<D>, Records), OpenRefused<D>>
    requires file { file < 3 }
    requires limit { limit < 2 ^ 62 }
    requires fits { length bytes.items < 2 ^ 63 }
    requires place { ReadsLength file (length bytes.items) (D.sight disk) }
    ensures opened { IfOk result (λ opened. EachHas file (λ b. b ≡ bytes.items) (D.sight disk).images →
        IsOpened file limit opened.1 opened.0) }
    ensures whole { IfOk result (λ opened. Short bytes.items → HoldsJust opened.0 [] × (format_of opened.0 ≡ format)) }
    ensures list { IfOk result (λ opened. Recovers bytes.items (format_of opened.0) opened.1) }
    ensures run { IfOk result (λ opened. EachHas file (λ b. b ≡ bytes.items) (D.sight disk).images →
        Leaves file SameList SameList (D.sight disk) (D.sight (disk_of opened.0))) }
    ensures no_other { IfOk result (λ opened. D.faults (disk_of opened.0) ≡ D.faults disk) }
    ensures refused { IfErr result (IsRefusedAs D.Disk file bytes.items disk) }
{
    if bytes.len() <= 9 {
        open_new(alloc, disk, file, limit, format)
    } else {
        open_kept(alloc, disk, file, limit, bytes)
    }
}

impl<D: Disk> Journal<D> {
    /// Opens the journal in a file of the disk, and gives the bodies of its records. It syncs the file first, mends
    /// what follows the records, and makes a file of at most nine bytes new, in the format that is asked for. A file
    /// that is longer has the format of its header, and is damaged where it is outside the grammar. An error hands the
    /// disk back. It takes memory for the file's bytes once, and for two machine words a record.
    pub fn open(
        alloc: Global,
        mut disk: D,
        file: u8,
        limit: u64,
        new: Format,
    ) -> Result<(Journal<D>, Records), OpenRefused<D>>
        requires file { file < 3 }
        requires limit { (9 ≤ limit) × (limit ≤ JOURNAL_LIMIT) }
        ensures opened { IfOk result (λ opened. IsOpened file limit opened.1 opened.0) }
        ensures list { IfOk result (λ opened.
            ReadsAs file (λ bytes. Recovers bytes (format_of opened.0) opened.1) (D.sight disk)) }

        // A file that was made new is the header and the closed gate.
        ensures whole { IfOk result (λ opened. (s : Image) → (D.sight disk).reads s → Short (s file) →
            HoldsJust opened.0 [] × (format_of opened.0 ≡ new)) }

        // A crash at any moment of the call leaves each image with the list that it had, and the other files.
        ensures any_moment { IfOk result (λ opened.
            Leaves file SameList SameList (D.sight disk) (D.sight (disk_of opened.0))) }

        ensures no_other { IfOk result (λ opened. D.faults (disk_of opened.0) ≡ D.faults disk) }
        ensures refused { IfErr result (IsRefused D.Disk file disk) }
    {
        match load(alloc, &mut disk, file) {
            Ok(bytes) => open_loaded(alloc, disk, file, limit, new, bytes),
            Err(LoadRefused::Failed) => Err(OpenRefused::Failed(disk)),
            Err(LoadRefused::Memory) => Err(OpenRefused::Memory(disk)),
        }
    }
}
