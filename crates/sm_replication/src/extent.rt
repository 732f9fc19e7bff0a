//! How far frames reach.

/// How far the frame reaches that bytes begin with.
#[derive(Clone, Copy, Debug, PartialEq, Eq)]
pub enum Extent {
    /// It has so many bytes.
    Whole(usize),
    /// A limit is passed, or no frame begins so.
    Over,
    /// The bytes don't tell yet.
    Open,
}
