//! The random bytes that a request needs.
ghost use Rattle.std.specs.Prelude.{◌≡◌, ◌<◌, ◌≤◌, length};
ghost use Rattle.sm_base.specs.Faults.{Rose};
ghost use Rattle.sm_io.specs.Random.{IfDrew, OnDrawFailed, Draws};

use sm_io::{Drew, Words};
use sm_model::Bytes;
use std::alloc::Global;

/// Draws so many bytes. None are asked for where none are needed.
pub fn draw<W: Words>(alloc: Global, random: &mut W, n: usize) -> Drew
    ensures exactly { IfDrew result (λ bytes. length bytes ≡ n) }
    ensures bytes { Draws result (W.drawn random.old) (W.drawn random.new) }
    ensures failed { OnDrawFailed result (Rose (W.faults random.old) (W.faults random.new)) }
    ensures wanted { OnDrawFailed result (0 < n) }
    ensures later { W.faults random.old ≤ W.faults random.new }
{
    if n == 0 {
        Drew::Bytes(Bytes::empty(alloc))
    } else {
        random.draw(n)
    }
}
