//! The root of a disk: a file whose first byte names the journal that counts.
ghost use Rattle.std.specs.Prelude.{◌≡◌, ◌<◌, ◌≤◌, get_or, IfOk, OnOk};
ghost use Rattle.sm_disk.specs.Sight.{Image};
ghost use Rattle.sm_disk.specs.Steps.{Keeps};
ghost use Rattle.sm_disk.specs.OneFile.{EachHas, Anyhow, Leaves};
ghost use Rattle.sm_disk.specs.Faults.{HasCause};
ghost use Rattle.sm_journal.specs.Openings.{Equal};
ghost use Rattle.sm_journal.specs.Roots.{named, AllName, BeginsWith};

use sm_disk::{Disk, DiskFailed};

/// The file that names another.
pub const ROOT: u8 = 2;

/// The number as it is stated, so that the constant stays it.
pub fn root_is_as_stated()
    ensures { ROOT ≡ 2 }
{}

/// The root's first byte, or 0 where it has none. The root is synced first.
fn first_byte<D: Disk>(disk: &mut D) -> Result<u8, DiskFailed>
    ensures byte { IfOk result (λ byte. (s : Image) → (D.sight disk.old).reads s → get_or (s ROOT) 0 0 ≡ byte) }
    ensures synced { IfOk result (λ byte. EachHas ROOT (λ bytes. get_or bytes 0 0 ≡ byte) (D.sight disk.new).images) }
    ensures run { Leaves ROOT Equal Equal (D.sight disk.old) (D.sight disk.new) }
    ensures reads { Keeps (D.sight disk.old) (D.sight disk.new) }
    ensures cause { HasCause (D.faults disk.old) (D.faults disk.new) result }
{
    disk.sync(ROOT)?;
    let length = disk.length(ROOT)?;
    if length == 0 {
        return Ok(0);
    }
    let mut first = [0u8; 1];
    disk.read(ROOT, 0, &mut first)?;
    Ok(first[0])
}

/// The number of the file that the root names: 1 where its first byte is 1, and else 0. The root is synced first, so
/// every later crash leaves one that names this file.
pub fn named_file<D: Disk>(disk: &mut D) -> Result<u8, DiskFailed>
    ensures file { IfOk result (λ file. file < 2) }
    ensures named { IfOk result (λ file. (s : Image) → (D.sight disk.old).reads s → named (s ROOT) ≡ file) }
    ensures all { IfOk result (λ file. AllName file (D.sight disk.new).images) }

    // It changes nothing.
    ensures run { Leaves ROOT Equal Equal (D.sight disk.old) (D.sight disk.new) }
    ensures reads { Keeps (D.sight disk.old) (D.sight disk.new) }

    ensures cause { HasCause (D.faults disk.old) (D.faults disk.new) result }
{
    let byte = first_byte(disk)?;
    Ok(if byte == 1 { 1 } else { 0 })
}

/// Writes the root's first byte and syncs the root.
pub fn set_root<D: Disk>(disk: &mut D, byte: u8) -> Result<(), DiskFailed>
    ensures set { OnOk result (EachHas ROOT (BeginsWith byte) (D.sight disk.new).images) }
    ensures run { Leaves ROOT Anyhow Anyhow (D.sight disk.old) (D.sight disk.new) }
    ensures cause { HasCause (D.faults disk.old) (D.faults disk.new) result }
{
    disk.write_at(ROOT, 0, &[byte])?;
    disk.sync(ROOT)?;
    Ok(())
}
