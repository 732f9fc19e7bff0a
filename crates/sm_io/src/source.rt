//! Where bytes come from.
ghost use Rattle.std.specs.Prelude.{◌≡◌, ◌<◌, ◌≤◌, ℕ, List, Option, length};
ghost use Rattle.std.specs.Io.KnownBytes.{IsAtEnd};
ghost use Rattle.sm_base.specs.Faults.{Rose};
ghost use Rattle.sm_io.specs.Source.{IfGot, OnEnd, OnTakeFailed, StaysUnlessTakeFailed, Takes};

/// What a take answers: how many bytes it got, that nothing is left, or that it failed.
#[derive(Clone, Copy, Debug, PartialEq, Eq)]
pub enum Took {
    Got(usize),
    End,
    Failed,
}

/// A source of bytes.
///
/// One value may be a source and a sink at once. What its sink side took and counted stands in
/// `beside_source`, and a take leaves it.
pub trait Source {
    /// The bytes that are left, where the source tells them.
    ghost left: { Self → Option (List ℕ) };

    /// How often the source has failed. At 2^64 - 1 the count stands.
    ghost source_faults: { Self → ℕ };

    /// What the sink beside it took, where it tells that, and how often that has failed.
    ghost beside_source: { Self → Option (List ℕ) × ℕ };

    /// Takes the next bytes to the front of a buffer: at least one, if the buffer has room for one. An empty
    /// buffer gets none. What is left in the rest of the buffer is not said. The count of faults stays with every
    /// answer but `Failed`, so that no failure is left out of the answer.
    fn take(&mut self, buf: &mut [u8]) -> Took
        ensures within { IfGot result (λ n. n ≤ length buf.old) }
        ensures some { IfGot result (λ n. 0 < length buf.old → 0 < n) }
        ensures bytes { Takes result buf.new (left self.old) (left self.new) }
        ensures end { OnEnd result (IsAtEnd (left self.old)) }
        ensures failed { OnTakeFailed result (Rose (source_faults self.old) (source_faults self.new)) }
        ensures later { source_faults self.old ≤ source_faults self.new }
        ensures no_other { StaysUnlessTakeFailed result (source_faults self.old) (source_faults self.new) }
        ensures beside { beside_source self.new ≡ beside_source self.old };
}
