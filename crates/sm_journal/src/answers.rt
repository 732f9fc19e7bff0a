//! What the calls of a journal answer.
use crate::parse::Damage;

/// What became of a record that was to be added.
#[derive(Clone, Copy, Debug, PartialEq, Eq)]
pub enum Appended {
    Ok,
    /// The disk failed.
    Failed,
    /// The file would be longer than its limit: its length then.
    Full(u64),
    /// The body is longer than 1,048,576 bytes: its length.
    TooLong(u64),
}

/// Why a journal is not opened. Each hands the disk back.
#[derive(Drop)]
pub enum OpenRefused<D> {
    /// The file is outside the grammar.
    Damaged(D, Damage),
    /// The disk failed.
    Failed(D),
    /// Memory was wanted.
    Memory(D),
}
