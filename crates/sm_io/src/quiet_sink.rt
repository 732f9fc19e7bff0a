//! A sink that keeps nothing.
ghost use Rattle.std.specs.Prelude.{◌≡◌, length, None};
ghost use Rattle.sm_io.specs.declared.sink.Gave.TheVariants.{Put};

use crate::sink::{Gave, Sink};

/// A sink that takes every piece whole, keeps nothing, tells nothing and never fails.
#[derive(Clone, Copy, Debug, Default, PartialEq, Eq)]
pub struct QuietSink;

impl Sink for QuietSink {
    ghost taken = { λ _. None };

    ghost sink_faults = { λ _. 0 };

    ghost beside_sink = { λ _. (None, 0) };

    fn put(&mut self, piece: &[u8]) -> Gave
        ensures whole { result ≡ Gave.Put (length piece.now) }
    {
        Gave::Put(piece.len())
    }
}
