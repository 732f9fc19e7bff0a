//! A stream in both directions in memory.
ghost use Rattle.std.specs.Prelude.{◌≡◌, ◌<◌, ◌≤◌, length, take, Some};
ghost use Rattle.std.specs.Io.KnownBytes.{IsAtEnd};
ghost use Rattle.sm_base.specs.Faults.{Rose};
ghost use Rattle.sm_io.specs.Source.{IfGot, OnEnd, OnTakeFailed, StaysUnlessTakeFailed, Takes};
ghost use Rattle.sm_io.specs.Sink.{IfPut, OnPutFailed, Puts, StaysUnlessPutFailed};
ghost use Rattle.sm_io.specs.MemorySource.{take_answer, after_take};
ghost use Rattle.sm_io.specs.MemorySink.{after_put};

use crate::conn::Conn;
use crate::memory_sink::MemorySink;
use crate::memory_source::MemorySource;
use crate::sink::{Gave, Sink};
use crate::source::{Source, Took};

/// A source and a sink in memory, side by side.
#[derive(Drop)]
pub struct MemoryConn {
    source: MemorySource,
    sink: MemorySink,
}

impl MemoryConn {
    /// The two as one. It takes no memory.
    pub fn new(source: MemorySource, sink: MemorySink) -> MemoryConn
        ensures { (result.source ≡ source) × (result.sink ≡ sink) }
    {
        MemoryConn { source, sink }
    }

    /// The sink, with what was put.
    pub fn sink(&self) -> &MemorySink
        ensures { result.now ≡ self.now.sink }
    {
        &self.sink
    }
}

impl Source for MemoryConn {
    ghost left = { λ c. Some c.source.rest };

    ghost source_faults = { λ c. c.source.calls.faults };

    ghost beside_source = { λ c. (Some c.sink.taken, c.sink.calls.faults) };

    fn take(&mut self, buf: &mut [u8]) -> Took
        ensures within { IfGot result (λ n. n ≤ length buf.old) }
        ensures some { IfGot result (λ n. 0 < length buf.old → 0 < n) }
        ensures bytes { Takes result buf.new (Some self.old.source.rest) (Some self.new.source.rest) }
        ensures end { OnEnd result (IsAtEnd (Some self.old.source.rest)) }
        ensures failed { OnTakeFailed result
            (Rose self.old.source.calls.faults self.new.source.calls.faults) }
        ensures later { self.old.source.calls.faults ≤ self.new.source.calls.faults }
        ensures no_other { StaysUnlessTakeFailed result
            self.old.source.calls.faults self.new.source.calls.faults }

        // Exactly how it ends, and what is left then. The sink stays.
        ensures answer { result ≡ take_answer self.old.source (length buf.old) }
        ensures after { self.new.source ≡ after_take self.old.source result }
        ensures front { IfGot result (λ n. take n buf.new ≡ take n self.old.source.rest) }
        ensures sink { self.new.sink ≡ self.old.sink }
    {
        self.source.take(buf)
    }
}

impl Sink for MemoryConn {
    ghost taken = { λ c. Some c.sink.taken };

    ghost sink_faults = { λ c. c.sink.calls.faults };

    ghost beside_sink = { λ c. (Some c.source.rest, c.source.calls.faults) };

    fn put(&mut self, piece: &[u8]) -> Gave
        ensures within { IfPut result (λ n. n ≤ length piece.now) }
        ensures some { IfPut result (λ n. 0 < length piece.now → 0 < n) }
        ensures bytes { Puts result piece.now (Some self.old.sink.taken) (Some self.new.sink.taken) }
        ensures failed { OnPutFailed result (Rose self.old.sink.calls.faults self.new.sink.calls.faults) }
        ensures later { self.old.sink.calls.faults ≤ self.new.sink.calls.faults }
        ensures no_other { StaysUnlessPutFailed result
            self.old.sink.calls.faults self.new.sink.calls.faults }

        // What was taken then. The source stays.
        ensures after { self.new.sink ≡ after_put self.old.sink piece.now result }
        ensures source { self.new.source ≡ self.old.source }
    {
        self.sink.put(piece)
    }
}

impl Conn for MemoryConn {
    ghost use Rattle.std.specs.Prelude.{refl};

    ghost source_beside = { λ conn. refl };

    ghost sink_beside = { λ conn. refl };
}
