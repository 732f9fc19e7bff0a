//! A source in memory.
ghost use Rattle.std.specs.Prelude.{◌≡◌, ◌<◌, ◌≤◌, length, take, Some};
ghost use Rattle.std.specs.Io.KnownBytes.{IsAtEnd};
ghost use Rattle.sm_base.specs.Faults.{Rose};
ghost use Rattle.sm_io.specs.Calls.{no_calls};
ghost use Rattle.sm_io.specs.Source.{IfGot, OnEnd, OnTakeFailed, StaysUnlessTakeFailed, Takes};
ghost use Rattle.sm_io.specs.MemorySource.{take_answer, after_take};

use crate::calls::Calls;
use crate::source::{Source, Took};
use sm_base::{Bytes, Fails};
use std::marker::Model;

/// A source of given bytes. A take gives as many bytes as its step says, or all that are left or fit where
/// these are fewer, unless it is told to fail.
#[derive(Drop)]
pub struct MemorySource {
    bytes: Bytes,
    at: usize,
    step: usize,
    calls: Calls,
}

impl Model for MemorySource {
    ghost use Rattle.std.specs.Prelude.{◌≤◌, length, drop};
    ghost use Rattle.sm_io.specs.MemorySource.{SourceState};

    ghost Value = { SourceState };

    ghost view = { λ s. record { rest = drop s.at s.bytes; step = s.step; calls = s.calls } };

    ghost invariant = { λ s. (s.at ≤ length s.bytes) × (1 ≤ s.step) };
}

impl MemorySource {
    /// A source of these bytes. It takes no memory.
    pub fn new(bytes: Bytes, step: usize, fails: Fails) -> MemorySource
        requires { 1 ≤ step }
        ensures state { result ≡ record { rest = bytes; step = step; calls = no_calls fails } }
        ensures left { ⟦<MemorySource as Source>⟧.left result ≡ Some bytes }
        ensures faults { ⟦<MemorySource as Source>⟧.source_faults result ≡ 0 }
    {
        MemorySource {
            bytes,
            at: 0,
            step,
            calls: Calls::new(fails),
        }
    }
}

impl Source for MemorySource {
    ghost use Rattle.std.specs.Prelude.{None};

    ghost left = { λ s. Some s.rest };

    ghost source_faults = { λ s. s.calls.faults };

    ghost beside_source = { λ _. (None, 0) };

    fn take(&mut self, buf: &mut [u8]) -> Took
        ensures within { IfGot result (λ n. n ≤ length buf.old) }
        ensures some { IfGot result (λ n. 0 < length buf.old → 0 < n) }
        ensures bytes { Takes result buf.new (Some self.old.rest) (Some self.new.rest) }
        ensures end { OnEnd result (IsAtEnd (Some self.old.rest)) }
        ensures failed { OnTakeFailed result (Rose self.old.calls.faults self.new.calls.faults) }
        ensures later { self.old.calls.faults ≤ self.new.calls.faults }
        ensures no_other { StaysUnlessTakeFailed result self.old.calls.faults self.new.calls.faults }

        // Exactly how it ends, and what is left then.
        ensures answer { result ≡ take_answer self.old (length buf.old) }
        ensures after { self.new ≡ after_take self.old result }
        ensures front { IfGot result (λ n. take n buf.new ≡ take n self.old.rest) }
    {
        if self.calls.next_fails() {
            self.calls.count_fault();
            return Took::Failed;
        }
        self.calls.count_call();
        let rest = &self.bytes.as_slice()[self.at..];
        if rest.is_empty() {
            return Took::End;
        }
        let count = self.step.min(rest.len()).min(buf.len());
        buf[..count].copy_from_slice(&rest[..count]);
        self.at += count;
        Took::Got(count)
    }
}
