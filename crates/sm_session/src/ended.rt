//! How a stream of messages ended.
use sm_model::BadKind;

/// How a stream of messages ended.
#[derive(Clone, Copy, Debug, PartialEq, Eq)]
pub enum Ended {
    /// After a message that closes the stream, or where nothing was left behind a whole message.
    Closed,
    /// With so many bytes that are no whole message.
    Cut(u64),
    /// At a bad message, whose first byte has this number, counted from 0.
    Bad(BadKind, u64),
    /// As many messages were answered as are answered at most, and nothing behind them was looked at.
    Enough,
    ReadFault,
    /// So many bytes of the replies had been taken.
    WriteFault(u64),
    Memory,
}
