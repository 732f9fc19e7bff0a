//! Where bytes go to.
ghost use Rattle.std.specs.Prelude.{◌≡◌, ◌<◌, ◌≤◌, ℕ, List, Option, length};
ghost use Rattle.sm_base.specs.Faults.{Rose};
ghost use Rattle.sm_io.specs.Sink.{IfPut, OnPutFailed, Puts, StaysUnlessPutFailed};

/// What a put answers: how many bytes of the piece were taken, or that it failed.
#[derive(Clone, Copy, Debug, PartialEq, Eq)]
pub enum Gave {
    Put(usize),
    Failed,
}

/// A sink of bytes.
///
/// One value may be a sink and a source at once. What its source side has left and counted stands in
/// `beside_sink`, and a put leaves it.
pub trait Sink {
    /// The bytes that were taken, where the sink tells them.
    ghost taken: { Self → Option (List ℕ) };

    /// How often the sink has failed. At 2^64 - 1 the count stands.
    ghost sink_faults: { Self → ℕ };

    /// What the source beside it has left, where it tells that, and how often that has failed.
    ghost beside_sink: { Self → Option (List ℕ) × ℕ };

    /// Takes the front of a piece: at least one byte, if the piece has one. Of an empty piece it takes none. The count
    /// of faults stays with every answer but `Failed`, so that no failure is left out of the answer.
    fn put(&mut self, piece: &[u8]) -> Gave
        ensures within { IfPut result (λ n. n ≤ length piece.now) }
        ensures some { IfPut result (λ n. 0 < length piece.now → 0 < n) }
        ensures bytes { Puts result piece.now (taken self.old) (taken self.new) }
        ensures failed { OnPutFailed result (Rose (sink_faults self.old) (sink_faults self.new)) }
        ensures later { sink_faults self.old ≤ sink_faults self.new }
        ensures no_other { StaysUnlessPutFailed result (sink_faults self.old) (sink_faults self.new) }
        ensures beside { beside_sink self.new ≡ beside_sink self.old };
}
