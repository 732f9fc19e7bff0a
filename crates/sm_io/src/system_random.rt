//! The system's random words.
ghost use Rattle.std.specs.Prelude.{◌≡◌, ◌≤◌, length, None, OnOk, OnErr};
ghost use Rattle.sm_io.specs.Adapters.{draw_faults};
ghost use Rattle.sm_base.specs.Faults.{Rose};
ghost use Rattle.sm_io.specs.Random.{IfDrew, OnDrawFailed, StaysUnlessFailed, faults_after_draw};

use crate::random::{Drew, Words};
use sm_base::Bytes;
use std::alloc::Global;
use std::io;
use std::random::RandomSource;

/// The system's random source. It tells no content.
#[derive(Drop)]
pub struct SystemRandom<R> {
    alloc: Global,
    source: R,
    faults: u64,
}

impl<R> SystemRandom<R> {
    /// The words of this source, without a fault so far.
    pub fn new(alloc: Global, source: R) -> SystemRandom<R>
        ensures { draw_faults result ≡ 0 }
    {
        SystemRandom {
            alloc,
            source,
            faults: 0,
        }
    }
}

impl<R: RandomSource> Words for SystemRandom<R> {
    ghost drawn = { λ _. None };

    ghost faults = { λ w. draw_faults w };

    fn draw(&mut self, n: usize) -> Drew
        ensures exactly { IfDrew result (λ bytes. length bytes ≡ n) }
        ensures failed { OnDrawFailed result (Rose (draw_faults self.old) (draw_faults self.new)) }
        ensures later { draw_faults self.old ≤ draw_faults self.new }
        ensures no_other { StaysUnlessFailed result (draw_faults self.old) (draw_faults self.new) }
        ensures count { draw_faults self.new ≡ faults_after_draw result (draw_faults self.old) }
    {
        let mut vec = Vec::new(self.alloc);
        if vec.resize(n, 0).is_err() {
            return Drew::Memory;
        }
        let filled = self.source.fill_bytes(vec.as_mut_slice());
        answer_of(filled, Bytes::new(vec), &mut self.faults)
    }
}

/// What a draw answers: the bytes exactly where the source says that it filled them, and else that it failed,
/// which is counted.
fn answer_of(filled: io::Result<()>, bytes: Bytes, faults: &mut u64) -> Drew
    ensures filled { OnOk filled (result ≡ Drew.Bytes bytes) }
    ensures failed { OnErr filled (result ≡ Drew.Failed) }
    ensures count { faults.new ≡ faults_after_draw result faults.old }
    ensures later { faults.old ≤ faults.new }
{
    match filled {
        Ok(()) => Drew::Bytes(bytes),
        Err(_) => {
            *faults = faults.saturating_add(1);
            Drew::Failed
        }
    }
}
