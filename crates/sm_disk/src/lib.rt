//! Disks of three files: what a read gives, and what a crash at any moment may leave.
#![tactic(auto)]

pub mod call;
pub mod disk;
pub mod folder;
pub mod memory;
pub mod quiet;

pub use disk::{Disk, DiskFailed};
pub use folder::{FileDisk, FolderRefused};
pub use memory::MemoryDisk;
pub use quiet::QuietDisk;
