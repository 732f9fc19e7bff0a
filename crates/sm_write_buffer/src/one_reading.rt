//! Disks of which a read gives one answer.
ghost use Rattle.std.specs.Prelude.{◌≡◌, ℕ};
ghost use Rattle.sm_disk.specs.Sight.{Image};

use sm_disk::{Disk, FileDisk, MemoryDisk, QuietDisk};

/// A disk that never leaves open what a read gives.
pub trait OneReading: Disk {
    /// Two readings of one moment are the same.
    ghost one_reading: { (disk : Self) (r s : Image) → (Self.sight disk).reads r → (Self.sight disk).reads s →
        (file : ℕ) → r file ≡ s file };
}

impl OneReading for MemoryDisk {
    ghost use Rattle.sm_write_buffer.specs.OneReadings.{memory_reads_one};

    ghost one_reading = { memory_reads_one };
}

impl OneReading for FileDisk {
    ghost one_reading = { λ disk r s told _. absurd told };
}

impl OneReading for QuietDisk {
    ghost one_reading = { λ disk r s told _. absurd told };
}
