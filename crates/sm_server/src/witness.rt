//! Who is told what a server opened.
use sm_table::Table;

/// Who is told what a server opened, before it serves. Nothing that a server does depends on it.
pub trait Witness {
    /// Is told of the secrets that were opened, and of how many entries made them.
    fn opened(&self, table: &Table, entries: u64);
}

/// Nobody.
pub struct Nobody;

impl Witness for Nobody {
    fn opened(&self, _table: &Table, _entries: u64) {}
}
