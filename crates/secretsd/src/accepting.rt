//! What to do where a connection can't be accepted.
use std::io;

/// The numbers of Linux for what the system says of a connection or its network, and not of the listener: EPERM,
/// ENONET, EPROTO, ENOPROTOOPT, EOPNOTSUPP, ENETDOWN, ENETUNREACH, ECONNABORTED, ECONNRESET, ETIMEDOUT, EHOSTDOWN and
/// EHOSTUNREACH.
const OF_PEERS: [i32; 12] = [1, 64, 71, 92, 95, 100, 101, 103, 104, 110, 112, 113];

/// Those for too many open files: ENFILE and EMFILE.
const OF_FILES: [i32; 2] = [23, 24];

/// Those for memory that the system lacks: ENOMEM and ENOBUFS.
const OF_MEMORY: [i32; 2] = [12, 105];

/// What to do after an accept that failed.
#[derive(Clone, Copy, PartialEq, Eq)]
pub enum Remedy {
    /// Another connection may be accepted at once.
    AtOnce,
    /// One may be accepted once a file is closed.
    CloseOne,
    /// One may be accepted later.
    Pause,
    /// None will be accepted any more.
    Nothing,
}

/// What to do after an accept that failed so.
pub fn remedy_of(error: &io::Error) -> Remedy {
    match error.raw_os_error() {
        Some(code) if OF_PEERS.contains(&code) => Remedy::AtOnce,
        Some(code) if OF_FILES.contains(&code) => Remedy::CloseOne,
        Some(code) if OF_MEMORY.contains(&code) => Remedy::Pause,
        _ => Remedy::Nothing,
    }
}
