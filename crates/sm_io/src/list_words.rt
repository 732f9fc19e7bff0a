//! Random words in memory that are given.
ghost use Rattle.std.specs.Prelude.{◌≡◌, ◌↔◌, ◌≤◌, [], length, take, IsTrue, Some};
ghost use Rattle.sm_base.specs.Faults.{Rose};
ghost use Rattle.sm_io.specs.Calls.{no_calls};
ghost use Rattle.sm_io.specs.Random.{IfDrew, OnDrawFailed, Draws, StaysUnlessFailed};
ghost use Rattle.sm_io.specs.ListWords.{fails_draw, after_list_draw};

use crate::calls::Calls;
use crate::random::{Drew, Words};
use sm_base::{Bytes, Fails};
use std::alloc::Global;
use std::marker::Model;

/// A random source that draws given bytes in order, unless a call is told to fail. A draw of more bytes than are left
/// is a fault.
#[derive(Drop)]
pub struct ListWords {
    alloc: Global,
    bytes: Bytes,
    at: usize,
    calls: Calls,
}

impl Model for ListWords {
    ghost use Rattle.std.specs.Prelude.{◌≤◌, length, take, drop};
    ghost use Rattle.sm_io.specs.ListWords.{ListState};

    ghost Value = { ListState };

    ghost view = { λ w. record { drawn = take w.at w.bytes; rest = drop w.at w.bytes; calls = w.calls } };

    ghost invariant = { λ w. w.at ≤ length w.bytes };
}

impl ListWords {
    /// A random source that draws these bytes. It takes no memory.
    pub fn new(alloc: Global, bytes: Bytes, fails: Fails) -> ListWords
        ensures state { result ≡ record { drawn = []; rest = bytes; calls = no_calls fails } }
        ensures drawn { ⟦<ListWords as Words>⟧.drawn result ≡ Some [] }
        ensures faults { ⟦<ListWords as Words>⟧.faults result ≡ 0 }
    {
        ListWords {
            alloc,
            bytes,
            at: 0,
            calls: Calls::new(fails),
        }
    }
}

impl Words for ListWords {
    ghost drawn = { λ w. Some w.drawn };

    ghost faults = { λ w. w.calls.faults };

    fn draw(&mut self, n: usize) -> Drew
        ensures exactly { IfDrew result (λ bytes. length bytes ≡ n) }
        ensures bytes { Draws result (Some self.old.drawn) (Some self.new.drawn) }
        ensures failed { OnDrawFailed result (Rose self.old.calls.faults self.new.calls.faults) }
        ensures later { self.old.calls.faults ≤ self.new.calls.faults }
        ensures no_other { StaysUnlessFailed result self.old.calls.faults self.new.calls.faults }

        // Exactly which call fails and which bytes the others draw.
        ensures told { (result ≡ Drew.Failed) ↔ IsTrue (fails_draw self.old n) }
        ensures next { IfDrew result (λ bytes. bytes ≡ take n self.old.rest) }
        ensures after { self.new ≡ after_list_draw self.old result }
    {
        let rest = &self.bytes.as_slice()[self.at..];
        if self.calls.next_fails() || rest.len() < n {
            self.calls.count_fault();
            return Drew::Failed;
        }
        self.calls.count_call();
        match Bytes::from_slice(self.alloc, &rest[..n]) {
            Ok(bytes) => {
                self.at += n;
                Drew::Bytes(bytes)
            }
            Err(_) => Drew::Memory,
        }
    }
}
