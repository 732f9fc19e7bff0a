//! What became of a request.
use sm_model::{Reply, Why};
use sm_table::Block;

/// What an account answers to a request.
#[derive(Drop)]
pub enum Handled {
    Answered(Block<Reply>),
    Refused(Why),
    /// The disk failed where the entry was to be written.
    DiskFault,
    Memory,
}
