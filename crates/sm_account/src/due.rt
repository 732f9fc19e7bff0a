//! An entry that is due.
use sm_model::{Bytes, Entry};
use sm_table::Prepared;

/// An entry that is due, its spelling, and its change with all the memory that it needs.
#[derive(Drop)]
pub struct Due {
    pub entry: Entry,
    pub ready: Bytes,
    pub prepared: Prepared,
}
