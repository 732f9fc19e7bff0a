//! Drawing the random bytes of a token.
ghost use Rattle.std.specs.Prelude.{◌≡◌, ◌≤◌};
ghost use Rattle.std.specs.Io.KnownBytes.{append_known};
ghost use Rattle.sm_base.specs.Faults.{Rose};
ghost use Rattle.sm_pool.specs.Drawing.{HasToken, OnDrawFault, drawn_in};

use sm_io::{Drew, Words};

/// What came of a draw.
#[derive(Clone, Copy)]
pub enum Drawn {
    Bytes([u8; 16]),
    Failed,
    Memory,
}

/// Draws the random bytes of one token.
pub fn draw<W: Words>(words: &mut W) -> Drawn
    ensures told { W.drawn words.new ≡ append_known (W.drawn words.old) (drawn_in result) }
    ensures long { HasToken result }
    ensures later { W.faults words.old ≤ W.faults words.new }
    ensures failed { OnDrawFault result (Rose (W.faults words.old) (W.faults words.new)) }
{
    match words.draw(16) {
        Drew::Bytes(bytes) => {
            let mut random = [0u8; 16];
            random.copy_from_slice(bytes.as_slice());
            Drawn::Bytes(random)
        }
        Drew::Failed => Drawn::Failed,
        Drew::Memory => Drawn::Memory,
    }
}
