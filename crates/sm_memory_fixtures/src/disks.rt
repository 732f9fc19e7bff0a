//! Disks in memory.
use sm_base::{Bytes, Fails, NoMemory};
use sm_disk::MemoryDisk;
use std::alloc::Global;

/// A disk whose first file holds these bytes, and whose others are empty.
pub fn disk_of(alloc: Global, journal: &[u8], fails: Fails) -> Result<MemoryDisk, NoMemory> {
    let journal_0 = Bytes::from_slice(alloc, journal)?;
    MemoryDisk::new(
        alloc,
        journal_0,
        Bytes::empty(alloc),
        Bytes::empty(alloc),
        fails,
    )
}
