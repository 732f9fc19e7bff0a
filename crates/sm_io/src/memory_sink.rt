//! A sink in memory.
ghost use Rattle.std.specs.Prelude.{◌≡◌, ◌<◌, ◌≤◌, [], ◌++◌, length, min, if◌then◌else◌, IsTrue, Some};
ghost use Rattle.sm_base.specs.Faults.{Rose};
ghost use Rattle.sm_io.specs.Sink.{IfPut, OnPutFailed, Puts, StaysUnlessPutFailed};
ghost use Rattle.sm_io.specs.Calls.{no_calls, fails_next};
ghost use Rattle.sm_io.specs.MemorySink.{after_put};

use crate::calls::Calls;
use crate::sink::{Gave, Sink};
use sm_base::{Bytes, Fails};
use std::alloc::Global;
use std::marker::Model;

/// A sink that keeps what it takes. A put takes as many bytes as its step says, or the whole piece where it
/// has fewer. It fails where it is told to, and else only where its growth finds no memory, which no clause can
/// see: that a sink with memory takes is tested.
#[derive(Drop)]
pub struct MemorySink {
    alloc: Global,
    taken: Bytes,
    step: usize,
    calls: Calls,
}

impl Model for MemorySink {
    ghost use Rattle.std.specs.Prelude.{◌≤◌};
    ghost use Rattle.sm_io.specs.MemorySink.{SinkState};

    ghost Value = { SinkState };

    ghost view = { λ s. record { taken = s.taken; step = s.step; calls = s.calls } };

    ghost invariant = { λ s. 1 ≤ s.step };
}

impl MemorySink {
    /// A sink that has taken nothing. It takes no memory.
    pub fn new(alloc: Global, step: usize, fails: Fails) -> MemorySink
        requires { 1 ≤ step }
        ensures state { result ≡ record { taken = []; step = step; calls = no_calls fails } }
        ensures taken { ⟦<MemorySink as Sink>⟧.taken result ≡ Some [] }
        ensures faults { ⟦<MemorySink as Sink>⟧.sink_faults result ≡ 0 }
    {
        MemorySink {
            alloc,
            taken: Bytes::empty(alloc),
            step,
            calls: Calls::new(fails),
        }
    }

    /// The bytes that were taken.
    pub fn taken(&self) -> &Bytes
        ensures { result.now ≡ self.now.taken }
    {
        &self.taken
    }
}

impl Sink for MemorySink {
    ghost use Rattle.std.specs.Prelude.{None};

    ghost taken = { λ s. Some s.taken };

    ghost sink_faults = { λ s. s.calls.faults };

    ghost beside_sink = { λ _. (None, 0) };

    fn put(&mut self, piece: &[u8]) -> Gave
        ensures within { IfPut result (λ n. n ≤ length piece.now) }
        ensures some { IfPut result (λ n. 0 < length piece.now → 0 < n) }
        ensures bytes { Puts result piece.now (Some self.old.taken) (Some self.new.taken) }
        ensures failed { OnPutFailed result (Rose self.old.calls.faults self.new.calls.faults) }
        ensures later { self.old.calls.faults ≤ self.new.calls.faults }
        ensures no_other { StaysUnlessPutFailed result self.old.calls.faults self.new.calls.faults }

        // Exactly how it ends where there is memory, and what was taken then.
        ensures told { IsTrue (fails_next self.old.calls) → result ≡ Gave.Failed }
        ensures count { IfPut result (λ n. n ≡ min self.old.step (length piece.now)) }
        ensures after { self.new ≡ after_put self.old piece.now result }
    {
        if self.calls.next_fails() {
            self.calls.count_fault();
            return Gave::Failed;
        }
        let count = self.step.min(piece.len());
        if append(self.alloc, &mut self.taken, &piece[..count]) {
            self.calls.count_call();
            Gave::Put(count)
        } else {
            self.calls.count_fault();
            Gave::Failed
        }
    }
}

/// Adds a slice at the end of bytes, and says whether there was memory for it. Without memory the bytes
/// stay.
fn append(alloc: Global, bytes: &mut Bytes, slice: &[u8]) -> bool
    ensures { bytes.new ≡ (if result then bytes.old ++ slice.now else bytes.old) }
{
    bytes.extend_from_slice(alloc, slice).is_ok()
}
