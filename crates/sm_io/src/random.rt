//! Where random bytes come from.
ghost use Rattle.std.specs.Prelude.{◌≡◌, ◌≤◌, ℕ, List, Option, length};
ghost use Rattle.sm_base.specs.Faults.{Rose};
ghost use Rattle.sm_io.specs.Random.{IfDrew, OnDrawFailed, Draws, StaysUnlessFailed};

use sm_base::Bytes;

/// What a draw answers: the bytes, that it failed, or that there was no memory for them.
#[derive(Drop)]
pub enum Drew {
    Bytes(Bytes),
    Failed,
    Memory,
}

/// A source of random bytes.
pub trait Words {
    /// The bytes that were drawn so far, where it tells them.
    ghost drawn: { Self → Option (List ℕ) };

    /// How often it has failed. At 2^64 - 1 the count stands.
    ghost faults: { Self → ℕ };

    /// Draws exactly n bytes, or none. The count of faults stays with every answer but `Failed`, so that no
    /// failure is left out of the answer.
    fn draw(&mut self, n: usize) -> Drew
        ensures exactly { IfDrew result (λ bytes. length bytes ≡ n) }
        ensures bytes { Draws result (drawn self.old) (drawn self.new) }
        ensures failed { OnDrawFailed result (Rose (faults self.old) (faults self.new)) }
        ensures later { faults self.old ≤ faults self.new }
        ensures no_other { StaysUnlessFailed result (faults self.old) (faults self.new) };
}
