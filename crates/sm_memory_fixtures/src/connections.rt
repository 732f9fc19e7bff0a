//! Connections in memory.
use crate::fails::fails_from;
use sm_base::{Bytes, NoMemory};
use sm_io::{MemoryConn, MemorySink, MemorySource};
use std::alloc::Global;

/// How a connection behaves: how many bytes move at a time, and from which call on each side fails.
#[derive(Clone, Copy)]
pub struct Behaviour {
    pub take: usize,
    pub put: usize,
    pub source_from: Option<u64>,
    pub sink_from: Option<u64>,
}

/// All moves at once, and nothing fails.
pub const WELL: Behaviour = Behaviour {
    take: 1_000_000,
    put: 1_000_000,
    source_from: None,
    sink_from: None,
};

/// A connection with this input.
pub fn connection(
    alloc: Global,
    input: &[u8],
    behaviour: &Behaviour,
) -> Result<MemoryConn, NoMemory> {
    let bytes = Bytes::from_slice(alloc, input)?;
    let take = behaviour.take.max(1);
    let source = MemorySource::new(bytes, take, fails_from(alloc, behaviour.source_from));
    let put = behaviour.put.max(1);
    let sink = MemorySink::new(alloc, put, fails_from(alloc, behaviour.sink_from));
    Ok(MemoryConn::new(source, sink))
}
