//! Random words in memory that count up.
ghost use Rattle.std.specs.Prelude.{◌≡◌, ◌↔◌, ◌+◌, ◌≤◌, [], length, IsTrue, IfOk, Some};
ghost use Rattle.sm_base.specs.Faults.{Rose};
ghost use Rattle.sm_io.specs.Random.{IfDrew, OnDrawFailed, Draws, StaysUnlessFailed};
ghost use Rattle.sm_io.specs.Calls.{no_calls, fails_next};
ghost use Rattle.sm_io.specs.CountWords.{count_up, after_draw};

use crate::calls::Calls;
use crate::count::Count;
use crate::random::{Drew, Words};
use sm_base::{Bytes, Fails, NoMemory};
use std::alloc::Global;
use std::marker::Model;

/// A random source that draws a first byte, the first plus 1, and on, modulo 256, unless a call is told to fail.
#[derive(Drop)]
pub struct CountWords {
    alloc: Global,
    first: u8,
    next: u8,
    count: Count,
    calls: Calls,
}

impl Model for CountWords {
    ghost use Rattle.std.specs.Prelude.{◌≡◌, ◌+◌, ◌%◌};
    ghost use Rattle.sm_io.specs.CountWords.{CountState};

    ghost Value = { CountState };

    ghost view = { λ w. record { first = w.first; count = w.count.value; calls = w.calls } };

    ghost invariant = { λ w. w.next ≡ (w.first + w.count.value) % 256 };
}

impl CountWords {
    /// A random source that has drawn nothing. It takes no memory.
    pub fn new(alloc: Global, first: u8, fails: Fails) -> CountWords
        ensures state { result ≡ record { first = first; count = 0; calls = no_calls fails } }
        ensures drawn { ⟦<CountWords as Words>⟧.drawn result ≡ Some [] }
        ensures faults { ⟦<CountWords as Words>⟧.faults result ≡ 0 }
    {
        CountWords {
            alloc,
            first,
            next: first,
            count: Count::zero(),
            calls: Calls::new(fails),
        }
    }
}

impl Words for CountWords {
    ghost drawn = { λ w. Some (count_up w.first w.count) };

    ghost faults = { λ w. w.calls.faults };

    fn draw(&mut self, n: usize) -> Drew
        ensures exactly { IfDrew result (λ bytes. length bytes ≡ n) }
        ensures bytes { Draws result (Some (count_up self.old.first self.old.count))
            (Some (count_up self.new.first self.new.count)) }
        ensures failed { OnDrawFailed result (Rose self.old.calls.faults self.new.calls.faults) }
        ensures later { self.old.calls.faults ≤ self.new.calls.faults }
        ensures no_other { StaysUnlessFailed result self.old.calls.faults self.new.calls.faults }

        // Exactly which call fails and which bytes the others draw.
        ensures told { (result ≡ Drew.Failed) ↔ IsTrue (fails_next self.old.calls) }
        ensures next { IfDrew result (λ bytes. bytes ≡ count_up (self.old.first + self.old.count) n) }
        ensures after { self.new ≡ after_draw self.old result }
    {
        if self.calls.next_fails() {
            self.calls.count_fault();
            return Drew::Failed;
        }
        self.calls.count_call();
        match count_from(self.alloc, self.next, n) {
            Ok(bytes) => {
                self.next = self.next.wrapping_add((n % 256) as u8);
                self.count = Count::plus(&self.count, &n);
                Drew::Bytes(Bytes::new(bytes))
            }
            Err(_) => Drew::Memory,
        }
    }
}

/// So many bytes that count up from the first, modulo 256.
fn count_from(alloc: Global, first: u8, n: usize) -> Result<Vec<u8>, NoMemory>
    ensures { IfOk result (λ vec. vec.items ≡ count_up first n) }
{
    let mut vec = Vec::with_capacity(alloc, n)?;
    for k in 0..n {
        vec.push(first.wrapping_add((k % 256) as u8))?;
    }
    Ok(vec)
}
