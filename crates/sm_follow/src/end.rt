//! How a replica's stream ended.

/// How a replica's stream ended.
#[derive(Clone, Copy, Debug, PartialEq, Eq)]
pub enum End {
    /// Nothing was left of the source behind a whole frame.
    Closed,
    /// With so many bytes that are no whole frame.
    Cut(u64),
    /// At bytes that no frame begins with, of which the first has this number, counted from 0.
    Bad(u64),
    /// As many frames were read as are read at most, and nothing behind them was looked at.
    Enough,
    ReadFault,
    /// So many bytes of the outputs had been taken.
    WriteFault(u64),
    /// The disk failed when a promoted replica was put on it.
    DiskFault,
    Memory,
}
