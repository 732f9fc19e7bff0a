//! The disk as the crates above see it.
ghost use Rattle.std.specs.Prelude.{◌≡◌, ◌<◌, ◌≤◌, ◌+◌, ℕ, length, take, drop, IfOk, OnOk, OnErr};
ghost use Rattle.sm_disk.specs.Sight.{Sight, Image};
ghost use Rattle.sm_disk.specs.Steps.{Holds, Torn, IsCut, CutOrNot, OnFile, Same, ReadsFollow, GoesOnTelling, Goes, Keeps, Synced};
ghost use Rattle.sm_disk.specs.Faults.{HasCause};

use std::error::Error;
use std::fmt;

/// The disk failed. It says nothing else.
#[derive(Clone, Copy, Debug, PartialEq, Eq)]
pub struct DiskFailed;

impl fmt::Display for DiskFailed {
    fn fmt<W: fmt::Write>(&self, f: &mut fmt::Formatter<W>) -> fmt::Result {
        f.write_str("disk fault")
    }
}

impl Error for DiskFailed {}

/// Three files, numbered 0 to 2. Between two syncs of a file a crash may undo or tear what was done to it: each
/// range that was written may hold any bytes, a grown file may have any end from the old one to the new, and a cut
/// file the old end or the new. A call that fails counts as tried.
///
/// A disk tells what it can (`sight`): what a read gives, and what a crash may leave. A disk that tells nothing
/// has no readings and no images, and then the clauses that speak of them ask and promise nothing.
pub trait Disk {
    /// What the disk tells.
    ghost sight: { Self → Sight };

    /// How often the disk has failed.
    ghost faults: { Self → ℕ };

    /// The length of a file.
    fn length(&mut self, file: u8) -> Result<u64, DiskFailed>
        requires { file < 3 }
        ensures length { IfOk result (λ n. (s : Image) → (sight self.old).reads s →
            n ≡ length (s file)) }
        ensures reads { Keeps (sight self.old) (sight self.new) }
        ensures crash { Goes Same (sight self.old) (sight self.new) }
        ensures cause { HasCause (faults self.old) (faults self.new) result };

    /// Fills the buffer with the bytes of a file from a place on. After a failure the buffer may hold anything.
    fn read(&mut self, file: u8, at: u64, buf: &mut [u8]) -> Result<(), DiskFailed>
        requires file { file < 3 }
        requires place { (s : Image) → (sight self.old).reads s →
            at + length buf.old ≤ length (s file) }
        ensures bytes { OnOk result ((s : Image) → (sight self.old).reads s →
            buf.new ≡ take (length buf.old) (drop at (s file))) }
        ensures reads { Keeps (sight self.old) (sight self.new) }
        ensures crash { Goes Same (sight self.old) (sight self.new) }
        ensures cause { HasCause (faults self.old) (faults self.new) result };

    /// Writes a piece over what is there, and past the end.
    fn write_at(&mut self, file: u8, at: u64, piece: &[u8]) -> Result<(), DiskFailed>
        requires file { file < 3 }
        requires place { (s : Image) → (sight self.old).reads s → at ≤ length (s file) }
        ensures written { OnOk result
            (ReadsFollow (OnFile file (Holds at piece.now)) (sight self.old) (sight self.new)) }
        ensures tried { OnErr result
            (ReadsFollow (OnFile file (Torn at (length piece.now))) (sight self.old) (sight self.new)) }
        ensures crash { Goes (OnFile file (Torn at (length piece.now))) (sight self.old) (sight self.new) }
        ensures tells { GoesOnTelling (sight self.old) (sight self.new) }
        ensures cause { HasCause (faults self.old) (faults self.new) result };

    /// Cuts a file to a length.
    fn cut(&mut self, file: u8, end: u64) -> Result<(), DiskFailed>
        requires file { file < 3 }
        requires place { (s : Image) → (sight self.old).reads s → end ≤ length (s file) }
        ensures cut { OnOk result
            (ReadsFollow (OnFile file (IsCut end)) (sight self.old) (sight self.new)) }
        ensures tried { OnErr result
            (ReadsFollow (OnFile file (CutOrNot end)) (sight self.old) (sight self.new)) }
        ensures crash { Goes (OnFile file (CutOrNot end)) (sight self.old) (sight self.new) }
        ensures tells { GoesOnTelling (sight self.old) (sight self.new) }
        ensures cause { HasCause (faults self.old) (faults self.new) result };

    /// Brings a file to the disk: a crash now leaves what a read of it gives.
    fn sync(&mut self, file: u8) -> Result<(), DiskFailed>
        requires { file < 3 }
        ensures synced { OnOk result (Synced file (sight self.new)) }
        ensures reads { Keeps (sight self.old) (sight self.new) }
        ensures crash { Goes Same (sight self.old) (sight self.new) }
        ensures cause { HasCause (faults self.old) (faults self.new) result };

    /// What a read gives is one of the images.
    ghost reads_image: { (disk : Self) (s : Image) → (sight disk).reads s → (sight disk).images s };

    /// This moment is one of those since an earlier one.
    ghost counts_now: { (disk : Self) (t : ℕ) (c : Image) →
        t ≤ (sight disk).moment → (sight disk).images c → (sight disk).left_since t c };

    /// Since this moment there is no other.
    ghost only_now: { (disk : Self) (c : Image) →
        (sight disk).left_since (sight disk).moment c → (sight disk).images c };
}
