//! What a run is asked for.
use crate::reports::Reports;
use sm_command_line::Settings;
use sm_disk::MemoryDisk;
use sm_model::{Bytes, Fails, NoMemory};
use std::alloc::Global;

/// What a run is asked for: its words, what they say, and the text of the people who may ask. Beside them is who says
/// what fails.
#[derive(Drop)]
pub struct Orders<'a> {
    pub words: &'a [String],
    pub settings: &'a Settings,
    pub people: &'a [u8],
    pub reports: &'a Reports<'a>,
}

/// An empty disk in memory.
pub fn empty_disk(alloc: Global) -> Result<MemoryDisk, NoMemory> {
    MemoryDisk::new(
        alloc,
        Bytes::empty(alloc),
        Bytes::empty(alloc),
        Bytes::empty(alloc),
        Fails::never(alloc),
    )
}
