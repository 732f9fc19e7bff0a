//! A stream in both directions over the system's, as over TCP.
ghost use Rattle.std.specs.Prelude.{◌≡◌, ◌<◌, ◌≤◌, length, None};
ghost use Rattle.sm_base.specs.Faults.{Rose};
ghost use Rattle.sm_io.specs.Source.{IfGot, OnTakeFailed, StaysUnlessTakeFailed, faults_after_take};
ghost use Rattle.sm_io.specs.Sink.{IfPut, OnPutFailed, StaysUnlessPutFailed, faults_after_put};
ghost use Rattle.sm_io.specs.StreamConn.{read_faults, write_faults};

use crate::conn::Conn;
use crate::sink::{Gave, Sink};
use crate::source::{Source, Took};
use crate::stream_sink::write_through;
use crate::stream_source::read_some;
use std::io::{Read, Write};

/// A stream that is read and written. It tells no content. A read that gives nothing is the end; one that fails, a
/// write that fails and one that takes nothing are faults.
#[derive(Drop)]
pub struct StreamConn<S> {
    stream: S,
    source_faults: u64,
    sink_faults: u64,
}

impl<S> StreamConn<S> {
    /// The two sides of this stream, without a fault so far.
    pub fn new(stream: S) -> StreamConn<S>
        ensures { (read_faults result ≡ 0) × (write_faults result ≡ 0) }
    {
        StreamConn {
            stream,
            source_faults: 0,
            sink_faults: 0,
        }
    }
}

impl<S: Read + Write> Source for StreamConn<S> {
    ghost left = { λ _. None };

    ghost source_faults = { λ c. read_faults c };

    ghost beside_source = { λ c. (None, write_faults c) };

    fn take(&mut self, buf: &mut [u8]) -> Took
        ensures within { IfGot result (λ n. n ≤ length buf.old) }
        ensures some { IfGot result (λ n. 0 < length buf.old → 0 < n) }
        ensures failed { OnTakeFailed result (Rose (read_faults self.old) (read_faults self.new)) }
        ensures later { read_faults self.old ≤ read_faults self.new }
        ensures no_other { StaysUnlessTakeFailed result (read_faults self.old) (read_faults self.new) }
        ensures count { read_faults self.new ≡ faults_after_take result (read_faults self.old) }
        ensures beside { write_faults self.new ≡ write_faults self.old }
    {
        if buf.is_empty() {
            return Took::Got(0);
        }
        match read_some(&mut self.stream, buf) {
            Ok(0) => Took::End,
            Ok(count) => Took::Got(count),
            Err(_) => {
                self.source_faults = self.source_faults.saturating_add(1);
                Took::Failed
            }
        }
    }
}

impl<S: Read + Write> Sink for StreamConn<S> {
    ghost taken = { λ _. None };

    ghost sink_faults = { λ c. write_faults c };

    ghost beside_sink = { λ c. (None, read_faults c) };

    fn put(&mut self, piece: &[u8]) -> Gave
        ensures within { IfPut result (λ n. n ≤ length piece.now) }
        ensures some { IfPut result (λ n. 0 < length piece.now → 0 < n) }
        ensures failed { OnPutFailed result (Rose (write_faults self.old) (write_faults self.new)) }
        ensures later { write_faults self.old ≤ write_faults self.new }
        ensures no_other { StaysUnlessPutFailed result (write_faults self.old) (write_faults self.new) }
        ensures count { write_faults self.new ≡ faults_after_put result (write_faults self.old) }
        ensures beside { read_faults self.new ≡ read_faults self.old }
    {
        if piece.is_empty() {
            return Gave::Put(0);
        }
        match write_through(&mut self.stream, piece) {
            Ok(count) if count > 0 => Gave::Put(count),
            _ => {
                self.sink_faults = self.sink_faults.saturating_add(1);
                Gave::Failed
            }
        }
    }
}

impl<S: Read + Write> Conn for StreamConn<S> {
    ghost use Rattle.std.specs.Prelude.{refl};

    ghost source_beside = { λ conn. refl };

    ghost sink_beside = { λ conn. refl };
}
