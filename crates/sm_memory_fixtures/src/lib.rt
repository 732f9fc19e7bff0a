//! Disks and connections in memory, the calls of them that fail, and messages and replies byte by byte, for several
//! crates of tests.
#![tactic(auto)]

pub mod connections;
pub mod disks;
pub mod exchanges;
pub mod failing;
pub mod fails;
pub mod messages;
