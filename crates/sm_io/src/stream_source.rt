//! A source over any reader.
ghost use Rattle.std.specs.Prelude.{◌≡◌, ◌<◌, ◌≤◌, length, take, None};
ghost use Rattle.std.specs.Io.{ReadsAtMost};
ghost use Rattle.std.specs.Io.KnownBytes.{ReadConsumes, Consumes, Keeps, IsAtEnd};
ghost use Rattle.sm_io.specs.Adapters.{reader_of, read_faults};
ghost use Rattle.sm_base.specs.Faults.{Rose};
ghost use Rattle.sm_io.specs.Source.{IfGot, OnEnd, OnTakeFailed, StaysUnlessTakeFailed, faults_after_take};

use crate::source::{Source, Took};
use std::io;
use std::io::{ErrorKind, Read};

/// How often a read that was interrupted is tried in all.
const TRIES: u32 = 1_000;

/// The source of a reader's bytes, as of standard input or a stream. It tells no content. A read that gives
/// nothing is the end, and one that fails is a fault.
#[derive(Drop)]
pub struct StreamSource<R> {
    reader: R,
    faults: u64,
}

impl<R> StreamSource<R> {
    /// The source of this reader's bytes, without a fault so far.
    pub fn new(reader: R) -> StreamSource<R>
        ensures reader { reader_of result ≡ reader }
        ensures faults { read_faults result ≡ 0 }
    {
        StreamSource { reader, faults: 0 }
    }
}

impl<R: Read> Source for StreamSource<R> {
    ghost left = { λ _. None };

    ghost source_faults = { λ s. read_faults s };

    ghost beside_source = { λ _. (None, 0) };

    fn take(&mut self, buf: &mut [u8]) -> Took
        ensures within { IfGot result (λ n. n ≤ length buf.old) }
        ensures some { IfGot result (λ n. 0 < length buf.old → 0 < n) }
        ensures failed { OnTakeFailed result (Rose (read_faults self.old) (read_faults self.new)) }
        ensures later { read_faults self.old ≤ read_faults self.new }
        ensures no_other { StaysUnlessTakeFailed result (read_faults self.old) (read_faults self.new) }

        // What it does to the reader, where that says what it has left, and to the count.
        ensures reads { IfGot result (λ n. Consumes (R.remaining (reader_of self.old))
            (R.remaining (reader_of self.new)) (take n buf.new)) }
        ensures at_end { OnEnd result (IsAtEnd (R.remaining (reader_of self.new))) }
        ensures keeps { OnTakeFailed result (Keeps (R.remaining (reader_of self.old))
            (R.remaining (reader_of self.new))) }
        ensures count { read_faults self.new ≡ faults_after_take result (read_faults self.old) }
    {
        if buf.is_empty() {
            return Took::Got(0);
        }
        match read_some(&mut self.reader, buf) {
            Ok(0) => Took::End,
            Ok(count) => Took::Got(count),
            Err(_) => {
                self.faults = self.faults.saturating_add(1);
                Took::Failed
            }
        }
    }
}

/// Reads once, and again where the read was interrupted.
pub(crate) fn read_some<R: Read>(reader: &mut R, buf: &mut [u8]) -> io::Result<usize>
    ensures bound { ReadsAtMost result buf.new }
    ensures bytes { ReadConsumes (R.remaining reader.old) (R.remaining reader.new) result buf.new }
{
    for _ in 1..TRIES {
        match reader.read(buf) {
            Err(error) if error.kind() == ErrorKind::Interrupted => {}
            answer => return answer,
        }
    }
    reader.read(buf)
}
