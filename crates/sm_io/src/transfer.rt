//! The loops above sources and sinks: a read up to a limit, and a put of a whole piece.
ghost use Rattle.std.specs.Prelude.{◌≡◌, ◌≢◌, ◌<◌, ◌≤◌, ◌+◌, ◌^◌, ◌↔◌, length, take, drop, vec_len, IfOk, IfErr, MatchResult};
ghost use Rattle.std.specs.Io.KnownBytes.{prepend_known, IsAtEnd};
ghost use Rattle.sm_base.specs.Faults.{Rose};
ghost use Rattle.sm_io.specs.Transfer.{IfFault, StaysUnlessFault, Writes, OnReadEnd, OnReadFailed, StaysUnlessReadFailed};

use crate::sink::{Gave, Sink};
use crate::source::{Source, Took};
use sm_base::Bytes;
use std::alloc::Global;

/// How many bytes a read asks for at a time.
const PIECE: usize = 16_384;

/// How a put of a whole piece ended.
#[derive(Clone, Copy, Debug, PartialEq, Eq)]
pub enum Wrote {
    /// All of it was taken.
    Ok,
    /// The sink failed after it had taken so many bytes of the front, fewer than the piece has.
    Fault(u64),
}

/// Puts a whole piece into a sink.
pub fn put_all<K: Sink>(sink: &mut K, piece: &[u8]) -> Wrote
    ensures bytes { Writes result piece.now (K.taken sink.old) (K.taken sink.new) }
    ensures short { IfFault result (λ n. n < length piece.now) }
    ensures failed { IfFault result (λ _. Rose (K.sink_faults sink.old) (K.sink_faults sink.new)) }
    ensures later { K.sink_faults sink.old ≤ K.sink_faults sink.new }
    ensures no_other { StaysUnlessFault result (K.sink_faults sink.old) (K.sink_faults sink.new) }
    ensures beside { K.beside_sink sink.new ≡ K.beside_sink sink.old }
{
    let mut at = 0;
    while at < piece.len() {
        match sink.put(&piece[at..]) {
            Gave::Put(count) => at += count,
            Gave::Failed => return Wrote::Fault(at as u64),
        }
    }
    Wrote::Ok
}

/// Why a read up to a limit ended.
#[derive(Clone, Copy, Debug, PartialEq, Eq)]
pub enum ReadEnd {
    /// The source has nothing left.
    End,
    /// As many bytes as the limit says are there.
    Full,
    /// The source failed.
    Failed,
    /// There was no memory for more.
    Memory,
}

/// The bytes of a read up to a limit, and why it ended.
#[derive(Drop)]
pub struct ReadBytes {
    pub bytes: Bytes,
    pub end: ReadEnd,
}

/// Reads until nothing is left, the source fails, there is no memory for more, or as many bytes as the
/// limit says are there. The bytes that were read are given back however it ends.
pub fn read_to<S: Source>(alloc: Global, source: &mut S, limit: usize) -> ReadBytes
    ensures bytes { S.left source.old ≡ prepend_known result.bytes (S.left source.new) }
    ensures within { length result.bytes ≤ limit }
    ensures full { (result.end ≡ ReadEnd.Full) ↔ (length result.bytes ≡ limit) }
    ensures end { OnReadEnd result.end (IsAtEnd (S.left source.new)) }
    ensures failed { OnReadFailed result.end
        (Rose (S.source_faults source.old) (S.source_faults source.new)) }
    ensures later { S.source_faults source.old ≤ S.source_faults source.new }
    ensures no_other { StaysUnlessReadFailed result.end
        (S.source_faults source.old) (S.source_faults source.new) }
    ensures beside { S.beside_source source.new ≡ S.beside_source source.old }
{
    let mut vec = Vec::new(alloc);
    let (count, end) = fill(source, &mut vec, limit);
    vec.truncate(count);
    ReadBytes {
        bytes: Bytes::new(vec),
        end,
    }
}

/// Reads to the front of a vector, and says how many bytes of it were read and why the read ended.
fn fill<S: Source>(source: &mut S, vec: &mut Vec<u8>, limit: usize) -> (usize, ReadEnd)
    ensures there { result.0 ≤ vec_len vec.new }
    ensures bytes { S.left source.old
        ≡ prepend_known (take result.0 vec.new.items) (S.left source.new) }
    ensures within { result.0 ≤ limit }
    ensures full { (result.1 ≡ ReadEnd.Full) ↔ (result.0 ≡ limit) }
    ensures end { OnReadEnd result.1 (IsAtEnd (S.left source.new)) }
    ensures failed { OnReadFailed result.1
        (Rose (S.source_faults source.old) (S.source_faults source.new)) }
    ensures later { S.source_faults source.old ≤ S.source_faults source.new }
    ensures no_other { StaysUnlessReadFailed result.1
        (S.source_faults source.old) (S.source_faults source.new) }
    ensures beside { S.beside_source source.new ≡ S.beside_source source.old }
{
    let mut at = 0;
    while at < limit {
        match take_at(source, vec, at, PIECE.min(limit - at)) {
            Ok(count) => at += count,
            Err(end) => return (at, end),
        }
    }
    (at, ReadEnd::Full)
}

/// Takes once, to the bytes of a vector from a place on, and says how many bytes came or why none did.
fn take_at<S: Source>(
    source: &mut S,
    vec: &mut Vec<u8>,
    at: usize,
    room: usize,
) -> Result<usize, ReadEnd>
    requires inside { at ≤ vec_len vec.old }
    requires some_room { 0 < room }
    requires fits { at + room < 2 ^ 64 }
    ensures some { IfOk result (λ n. 0 < n) }
    ensures within { IfOk result (λ n. n ≤ room) }
    ensures there { IfOk result (λ n. at + n ≤ vec_len vec.new) }
    ensures inside { at ≤ vec_len vec.new }
    ensures front { take at vec.new.items ≡ take at vec.old.items }
    ensures bytes { MatchResult result
        (λ n. S.left source.old ≡ prepend_known (take n (drop at vec.new.items)) (S.left source.new))
        (λ _. S.left source.new ≡ S.left source.old) }
    ensures not_full { IfErr result (λ end. end ≢ ReadEnd.Full) }
    ensures end { IfErr result (λ end. OnReadEnd end (IsAtEnd (S.left source.old))) }
    ensures failed { IfErr result (λ end. OnReadFailed end
        (Rose (S.source_faults source.old) (S.source_faults source.new))) }
    ensures later { S.source_faults source.old ≤ S.source_faults source.new }
    ensures no_other { MatchResult result
        (λ _. S.source_faults source.new ≡ S.source_faults source.old)
        (λ end. StaysUnlessReadFailed end (S.source_faults source.old) (S.source_faults source.new)) }
    ensures beside { S.beside_source source.new ≡ S.beside_source source.old }
{
    let end = at + room;
    if vec.resize(end, 0).is_err() {
        return Err(ReadEnd::Memory);
    }
    match source.take(&mut vec[at..end]) {
        Took::Got(count) => Ok(count),
        Took::End => Err(ReadEnd::End),
        Took::Failed => Err(ReadEnd::Failed),
    }
}
