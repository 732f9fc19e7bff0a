//! What entries are counted from.
use sm_model::{Moment, Rows};

/// Rows, the moment of the last entry that made them, and how many entries made them.
#[derive(Drop)]
pub struct Base {
    pub rows: Rows,
    pub last: Moment,
    pub entries: u64,
}
