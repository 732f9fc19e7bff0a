//! The formats of files.

/// A format of a journal's file, which its header tells: `SMJRNL01` or `SMJRNL02`. The records of both are framed
/// alike.
#[derive(Clone, Copy, Debug, PartialEq, Eq)]
pub enum Format {
    First,
    Second,
}
