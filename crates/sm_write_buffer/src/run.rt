//! Bytes that are to be written in one piece.
ghost use Rattle.std.specs.Prelude.{◌≡◌, ◌≤◌, ◌+◌, length, IfOk, OnOk, OnErr};
ghost use Rattle.sm_write_buffer.specs.Pieces.{laid};

use std::alloc::{AllocError, Global};
use std::marker::Model;

/// At most 1 MB of bytes that are to be written in one piece, which contracts see as their list.
#[derive(Drop)]
pub struct Run {
    bytes: Vec<u8>,
}

impl Model for Run {
    ghost use Rattle.std.specs.Prelude.{List, ℕ, ◌≤◌, length};

    ghost Value = { List ℕ };

    ghost view = { λ r. r.bytes.items };

    ghost invariant = { λ r. length r.bytes.items ≤ 1048576 };
}

impl Run {
    /// A copy of a slice.
    pub fn from_slice(alloc: Global, piece: &[u8]) -> Result<Run, AllocError>
        requires { length piece.now ≤ 1048576 }
        ensures { IfOk result (λ run. run ≡ piece.now) }
    {
        Ok(Run {
            bytes: Vec::from_slice(alloc, piece)?,
        })
    }

    /// How many bytes there are.
    pub fn len(&self) -> usize
        ensures count { result ≡ length self.now }
        ensures short { result ≤ 1048576 }
    {
        self.bytes.len()
    }

    /// The bytes.
    pub fn as_slice(&self) -> &[u8]
        ensures { result.now ≡ self.now }
    {
        self.bytes.as_slice()
    }

    /// Lays a piece over the bytes from a place on, and past their end. Without memory they stay.
    pub fn lay(&mut self, place: usize, piece: &[u8]) -> Result<(), AllocError>
        requires within { place ≤ length self.old }
        requires short { place + length piece.now ≤ 1048576 }
        ensures ok { OnOk result (self.new ≡ laid place piece.now self.old) }
        ensures err { OnErr result (self.new ≡ self.old) }
    {
        lay_over(&mut self.bytes, place, piece)
    }
}

/// Lays a piece over bytes from a place on, and past their end. Without memory they stay.
fn lay_over(bytes: &mut Vec<u8>, place: usize, piece: &[u8]) -> Result<(), AllocError>
    requires { place ≤ length bytes.old.items }
    ensures ok { OnOk result (bytes.new.items ≡ laid place piece.now bytes.old.items) }
    ensures err { OnErr result (bytes.new.items ≡ bytes.old.items) }
{
    let behind = bytes.len() - place;
    if piece.len() <= behind {
        bytes[place..place + piece.len()].copy_from_slice(piece);
        return Ok(());
    }
    let (over, past) = piece.split_at(behind);
    bytes.extend_from_slice(past)?;
    bytes[place..place + behind].copy_from_slice(over);
    Ok(())
}
