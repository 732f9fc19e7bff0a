//! What is pending, done on the disk below.
ghost use Rattle.std.specs.Prelude.{◌<◌, ◌≤◌, length, OnOk};
ghost use Rattle.sm_disk.specs.Sight.{Image};
ghost use Rattle.sm_disk.specs.Steps.{OnFile, ReadsFollow, GoesOnTelling, Goes};
ghost use Rattle.sm_disk.specs.Faults.{HasCause};
ghost use Rattle.sm_write_buffer.specs.Gathering.{IsDone, MayDo, place};

use crate::pending::Pending;
use sm_disk::{Disk, DiskFailed};

/// Does what is pending of a file.
pub fn settle<D: Disk>(disk: &mut D, file: u8, pending: &Pending) -> Result<(), DiskFailed>
    requires file { file < 3 }
    requires place { (s : Image) → (D.sight disk.old).reads s → place pending.now ≤ length (s file) }
    ensures done { OnOk result
        (ReadsFollow (OnFile file (IsDone pending.now)) (D.sight disk.old) (D.sight disk.new)) }
    ensures tried { ReadsFollow (OnFile file (MayDo pending.now)) (D.sight disk.old) (D.sight disk.new) }
    ensures crash { Goes (OnFile file (MayDo pending.now)) (D.sight disk.old) (D.sight disk.new) }
    ensures tells { GoesOnTelling (D.sight disk.old) (D.sight disk.new) }
    ensures cause { HasCause (D.faults disk.old) (D.faults disk.new) result }
{
    match pending {
        Pending::Nothing => Ok(()),
        Pending::Write(at, piece) => disk.write_at(file, *at, piece.as_slice()),
        Pending::Cut(end) => disk.cut(file, *end),
    }
}
