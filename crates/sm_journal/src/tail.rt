//! How sure a journal is of its file's end.

/// What may be unsure after a write that failed.
#[derive(Clone, Copy, Debug, PartialEq, Eq)]
pub enum Tail {
    /// Nothing: the file ends behind a closed gate.
    Sure,
    /// What stands behind the closed gate.
    Body,
    /// The gate itself, behind which a whole record stands.
    Gate,
}
