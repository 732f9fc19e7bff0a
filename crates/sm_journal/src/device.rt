//! The parts of a journal's work on the disk, each of a few device calls.
ghost use Rattle.std.specs.Prelude.{◌≡◌, ◌<◌, ◌≤◌, ◌+◌, ◌^◌, [], ◌∷◌, ◌++◌, ℕ, List, length, IfOk, OnOk, IsErrOf};
ghost use Rattle.sm_disk.specs.Sight.{Image};
ghost use Rattle.sm_base.specs.Faults.{Rose};
ghost use Rattle.sm_disk.specs.Faults.{HasCause};
ghost use Rattle.sm_disk.specs.Steps.{OnFile, ReadsFollow, Keeps};
ghost use Rattle.sm_journal.specs.Lengths.{SameLength, ReadsLength, ReadsAtLeast};
ghost use Rattle.sm_disk.specs.OneFile.{EachHas, Anyhow, Leaves};
ghost use Rattle.sm_journal.specs.Making.{IsMaking};
ghost use Rattle.sm_journal.specs.Records.{Gated, Closed, AtRest, Loose, Short, Whole, header, record_of, entry_of, body_limit};
ghost use Rattle.sm_journal.specs.Openings.{ReadsAs, LoadStays};
ghost use Rattle.std.specs.Int.{w32, to_be_bytes};
ghost use Rattle.sm_journal.specs.declared.device.LoadRefused.TheVariants.{Failed, Memory};

use crate::format::Format;
use sm_disk::{Disk, DiskFailed};
use std::alloc::{AllocError, Global};

/// Writes the gate at a place and syncs it. Until then it may hold any byte.
pub fn set_gate<D: Disk>(disk: &mut D, file: u8, gate: u64, byte: u8) -> Result<(), DiskFailed>
    requires file { file < 3 }
    requires place { ReadsAtLeast file (gate + 1) (D.sight disk.old) }
    ensures lengths { ReadsFollow (OnFile file SameLength) (D.sight disk.old) (D.sight disk.new) }
    ensures run { (before behind : List ℕ) → gate ≡ length before →
        EachHas file (Gated before behind) (D.sight disk.old).images →
        Leaves file (λ _. Gated before behind) (λ _. Gated before behind) (D.sight disk.old) (D.sight disk.new) }
    ensures set { OnOk result ((before behind : List ℕ) → gate ≡ length before →
        EachHas file (Gated before behind) (D.sight disk.old).images →
        EachHas file (λ bytes. bytes ≡ before ++ byte ∷ behind) (D.sight disk.new).images) }
    ensures cause { HasCause (D.faults disk.old) (D.faults disk.new) result }
{
    disk.write_at(file, gate, &[byte])?;
    disk.sync(file)?;
    Ok(())
}

/// Writes a body behind a closed gate, with its length before it and a closed gate behind it, and syncs them.
pub fn stage<D: Disk>(disk: &mut D, file: u8, gate: u64, body: &[u8]) -> Result<(), DiskFailed>
    requires file { file < 3 }
    requires within { length body.now ≤ body_limit }
    requires fits { gate < 2 ^ 63 }
    requires place { ReadsLength file (gate + 1) (D.sight disk.old) }
    ensures long { ReadsAtLeast file (gate + 1) (D.sight disk.new) }
    ensures length { OnOk result (ReadsLength file (gate + 6 + length body.now) (D.sight disk.new)) }
    ensures run { (before : List ℕ) → gate ≡ length before →
        EachHas file (AtRest before) (D.sight disk.old).images →
        Leaves file (λ _. Loose before) (λ _. Loose before) (D.sight disk.old) (D.sight disk.new) }
    ensures staged { OnOk result ((before : List ℕ) → gate ≡ length before →
        EachHas file (AtRest before) (D.sight disk.old).images →
        EachHas file (Closed before (entry_of body.now ++ 0 ∷ [])) (D.sight disk.new).images) }
    ensures cause { HasCause (D.faults disk.old) (D.faults disk.new) result }
{
    let length = (body.len() as u32).to_be_bytes();
    disk.write_at(file, gate + 1, &length)?;
    disk.write_at(file, gate + 5, body)?;
    let end = gate + 5 + body.len() as u64;
    disk.write_at(file, end, &[0])?;
    disk.sync(file)?;
    Ok(())
}

/// The gate and the length of a record of so many bytes.
fn opening(length: u32) -> [u8; 5]
    ensures { result ≡ 1 ∷ to_be_bytes w32 length }
{
    let bytes = length.to_be_bytes();
    [1, bytes[0], bytes[1], bytes[2], bytes[3]]
}

/// Writes a record with its gate open in the place of a file's last byte, with a closed gate behind it, and
/// doesn't sync it.
pub fn extend<D: Disk>(disk: &mut D, file: u8, gate: u64, body: &[u8]) -> Result<(), DiskFailed>
    requires file { file < 3 }
    requires within { length body.now ≤ body_limit }
    requires fits { gate < 2 ^ 63 }
    requires place { ReadsLength file (gate + 1) (D.sight disk.old) }
    ensures length { OnOk result (ReadsLength file (gate + 6 + length body.now) (D.sight disk.new)) }
    ensures run { Leaves file Anyhow Anyhow (D.sight disk.old) (D.sight disk.new) }
    ensures extended { OnOk result ((before : List ℕ) → gate ≡ length before →
        ReadsAs file (λ bytes. bytes ≡ before ++ 0 ∷ []) (D.sight disk.old) →
        ReadsAs file (λ bytes. bytes ≡ before ++ record_of body.now ++ 0 ∷ []) (D.sight disk.new)) }
    ensures cause { HasCause (D.faults disk.old) (D.faults disk.new) result }
{
    let opening = opening(body.len() as u32);
    disk.write_at(file, gate, &opening)?;
    let behind = gate + 5;
    disk.write_at(file, behind, body)?;
    let last = behind + body.len() as u64;
    disk.write_at(file, last, &[0])?;
    Ok(())
}

/// Cuts what stands behind a closed gate, and syncs the file.
pub fn cut_behind<D: Disk>(disk: &mut D, file: u8, gate: u64) -> Result<(), DiskFailed>
    requires file { file < 3 }
    requires fits { gate < 2 ^ 63 }
    requires place { ReadsAtLeast file (gate + 1) (D.sight disk.old) }
    ensures long { ReadsAtLeast file (gate + 1) (D.sight disk.new) }
    ensures length { OnOk result (ReadsLength file (gate + 1) (D.sight disk.new)) }
    ensures run { (before : List ℕ) → gate ≡ length before →
        EachHas file (Loose before) (D.sight disk.old).images →
        Leaves file (λ _. Loose before) (λ _. Loose before) (D.sight disk.old) (D.sight disk.new) }
    ensures cut { OnOk result ((before : List ℕ) → gate ≡ length before →
        EachHas file (Loose before) (D.sight disk.old).images →
        EachHas file (AtRest before) (D.sight disk.new).images) }
    ensures cause { HasCause (D.faults disk.old) (D.faults disk.new) result }
{
    disk.cut(file, gate + 1)?;
    disk.sync(file)?;
    Ok(())
}

/// A file without records: the header of its format and a closed gate.
fn empty_file(format: Format) -> [u8; 9]
    ensures { result ≡ header format ++ 0 ∷ [] }
{
    match format {
        Format::First => *b"SMJRNL01\0",
        Format::Second => *b"SMJRNL02\0",
    }
}

/// Begins a journal without records in a file, whatever it holds, and doesn't sync it.
pub fn begin<D: Disk>(disk: &mut D, file: u8, format: Format) -> Result<(), DiskFailed>
    requires { file < 3 }
    ensures length { OnOk result (ReadsLength file 9 (D.sight disk.new)) }
    ensures making { OnOk result (IsMaking file format [] (D.sight disk.old) (D.sight disk.new)) }
    ensures run { Leaves file Anyhow Anyhow (D.sight disk.old) (D.sight disk.new) }
    ensures short { EachHas file Short (D.sight disk.old).images →
        Leaves file (λ _. Short) (λ _. Short) (D.sight disk.old) (D.sight disk.new) }
    ensures cause { HasCause (D.faults disk.old) (D.faults disk.new) result }
{
    disk.cut(file, 0)?;
    let empty = empty_file(format);
    disk.write_at(file, 0, &empty)?;
    Ok(())
}

/// Makes a file of at most nine bytes a journal without records, and syncs it.
pub fn make<D: Disk>(disk: &mut D, file: u8, format: Format) -> Result<(), DiskFailed>
    requires { file < 3 }
    ensures length { OnOk result (ReadsLength file 9 (D.sight disk.new)) }
    ensures run { EachHas file Short (D.sight disk.old).images →
        Leaves file (λ _. Short) (λ _. Short) (D.sight disk.old) (D.sight disk.new) }
    ensures made { OnOk result (EachHas file (Whole format []) (D.sight disk.new).images) }
    ensures cause { HasCause (D.faults disk.old) (D.faults disk.new) result }
{
    begin(disk, file, format)?;
    disk.sync(file)?;
    Ok(())
}

/// Why a file could not be loaded.
#[derive(Clone, Copy, Debug, PartialEq, Eq)]
pub enum LoadRefused {
    Failed,
    Memory,
}

impl From<DiskFailed> for LoadRefused {
    ghost from_gives = { λ _ refused. refused ≡ Failed };

    fn from(_error: DiskFailed) -> LoadRefused {
        LoadRefused::Failed
    }
}

impl From<AllocError> for LoadRefused {
    ghost from_gives = { λ _ refused. refused ≡ Memory };

    fn from(_error: AllocError) -> LoadRefused {
        LoadRefused::Memory
    }
}

/// Syncs a file and reads it whole.
pub fn load<D: Disk>(alloc: Global, disk: &mut D, file: u8) -> Result<Vec<u8>, LoadRefused>
    requires { file < 3 }
    ensures run { Leaves file (λ old new. new ≡ old) (λ old new. new ≡ old)
        (D.sight disk.old) (D.sight disk.new) }
    ensures reads { Keeps (D.sight disk.old) (D.sight disk.new) }
    ensures loaded { IfOk result (λ bytes. (s : Image) → (D.sight disk.old).reads s → s file ≡ bytes.items) }
    ensures synced { IfOk result (λ bytes.
        EachHas file (λ b. b ≡ bytes.items) (D.sight disk.new).images) }
    ensures later { D.faults disk.old ≤ D.faults disk.new }
    ensures failed { IsErrOf result LoadRefused.Failed → Rose (D.faults disk.old) (D.faults disk.new) }
    ensures no_other { LoadStays result (D.faults disk.old) (D.faults disk.new) }
{
    disk.sync(file)?;
    let length = disk.length(file)?;
    let mut bytes = vec![in alloc; 0u8; length as usize]?;
    disk.read(file, 0, bytes.as_mut_slice())?;
    Ok(bytes)
}
