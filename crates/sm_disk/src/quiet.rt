//! A disk that keeps nothing.
ghost use Rattle.std.specs.Prelude.{◌≡◌, ◌<◌, Ok, IsOk};

use crate::disk::{Disk, DiskFailed};

/// A disk whose files have length 0. It keeps nothing, tells nothing and never fails.
#[derive(Clone, Copy, Debug, PartialEq, Eq)]
pub struct QuietDisk;

impl Disk for QuietDisk {
    ghost use Rattle.sm_disk.specs.Sight.{untold};

    ghost sight = { λ _. untold };

    ghost faults = { λ _. 0 };

    fn length(&mut self, _file: u8) -> Result<u64, DiskFailed>
        ensures never_fails { result ≡ Ok 0 }
    {
        Ok(0)
    }

    fn read(&mut self, _file: u8, _at: u64, _buf: &mut [u8]) -> Result<(), DiskFailed>
        ensures never_fails { IsOk result }
    {
        Ok(())
    }

    fn write_at(&mut self, _file: u8, _at: u64, _piece: &[u8]) -> Result<(), DiskFailed>
        ensures never_fails { IsOk result }
    {
        Ok(())
    }

    fn cut(&mut self, _file: u8, _end: u64) -> Result<(), DiskFailed>
        ensures never_fails { IsOk result }
    {
        Ok(())
    }

    fn sync(&mut self, _file: u8) -> Result<(), DiskFailed>
        ensures never_fails { IsOk result }
    {
        Ok(())
    }

    ghost reads_image = { λ _ s reads. reads };

    ghost counts_now = { λ _ t c le image. image };

    ghost only_now = { λ _ c left. left };
}
