//! A stream in both directions.
ghost use Rattle.std.specs.Prelude.{◌≡◌};

use crate::sink::Sink;
use crate::source::Source;

/// A source and a sink at once. What stands beside either side is what the other tells and counts.
pub trait Conn: Source + Sink {
    /// Beside the source stands what the sink took, and how often that failed.
    ghost source_beside: { (conn : Self) →
        Self.beside_source conn ≡ (Self.taken conn, Self.sink_faults conn) };

    /// Beside the sink stands what the source has left, and how often that failed.
    ghost sink_beside: { (conn : Self) →
        Self.beside_sink conn ≡ (Self.left conn, Self.source_faults conn) };
}
