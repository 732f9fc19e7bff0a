//! A sink over any writer.
ghost use Rattle.std.specs.Prelude.{◌≡◌, ◌<◌, ◌≤◌, length, take, None, IfOk};
ghost use Rattle.std.specs.Io.{WritesAtMost};
ghost use Rattle.std.specs.Io.KnownBytes.{Appends, WriteAppends};
ghost use Rattle.sm_io.specs.Adapters.{writer_of, write_faults};
ghost use Rattle.sm_base.specs.Faults.{Rose};
ghost use Rattle.sm_io.specs.Sink.{IfPut, OnPutFailed, StaysUnlessPutFailed, faults_after_put};

use crate::sink::{Gave, Sink};
use std::io;
use std::io::{ErrorKind, Write};

/// How often a write that was interrupted is tried in all.
const TRIES: u32 = 1_000;

/// The sink of a writer, as of standard output or a stream. It tells no content. A write that fails, takes
/// nothing or can't be flushed is a fault.
#[derive(Drop)]
pub struct StreamSink<W> {
    writer: W,
    faults: u64,
}

impl<W> StreamSink<W> {
    /// The sink of this writer, without a fault so far.
    pub fn new(writer: W) -> StreamSink<W>
        ensures writer { writer_of result ≡ writer }
        ensures faults { write_faults result ≡ 0 }
    {
        StreamSink { writer, faults: 0 }
    }
}

impl<W: Write> Sink for StreamSink<W> {
    ghost taken = { λ _. None };

    ghost sink_faults = { λ s. write_faults s };

    ghost beside_sink = { λ _. (None, 0) };

    fn put(&mut self, piece: &[u8]) -> Gave
        ensures within { IfPut result (λ n. n ≤ length piece.now) }
        ensures some { IfPut result (λ n. 0 < length piece.now → 0 < n) }
        ensures failed { OnPutFailed result (Rose (write_faults self.old) (write_faults self.new)) }
        ensures later { write_faults self.old ≤ write_faults self.new }
        ensures no_other { StaysUnlessPutFailed result (write_faults self.old) (write_faults self.new) }

        // What it does to the writer, where that says what it holds, and to the count.
        ensures writes { IfPut result (λ n. Appends (W.contents (writer_of self.old))
            (W.contents (writer_of self.new)) (take n piece.now)) }
        ensures count { write_faults self.new ≡ faults_after_put result (write_faults self.old) }
    {
        if piece.is_empty() {
            return Gave::Put(0);
        }
        match write_through(&mut self.writer, piece) {
            Ok(count) if count > 0 => Gave::Put(count),
            _ => {
                self.faults = self.faults.saturating_add(1);
                Gave::Failed
            }
        }
    }
}

/// Writes once, and flushes what was written.
pub(crate) fn write_through<W: Write>(writer: &mut W, piece: &[u8]) -> io::Result<usize>
    ensures bound { WritesAtMost result piece.now }
    ensures bytes { IfOk result
        (λ n. Appends (W.contents writer.old) (W.contents writer.new) (take n piece.now)) }
{
    let count = write_some(writer, piece)?;
    writer.flush()?;
    Ok(count)
}

/// Writes once, and again where the write was interrupted.
fn write_some<W: Write>(writer: &mut W, piece: &[u8]) -> io::Result<usize>
    ensures bound { WritesAtMost result piece.now }
    ensures bytes { WriteAppends (W.contents writer.old) (W.contents writer.new) result piece.now }
{
    for _ in 1..TRIES {
        match writer.write(piece) {
            Err(error) if error.kind() == ErrorKind::Interrupted => {}
            answer => return answer,
        }
    }
    writer.write(piece)
}
