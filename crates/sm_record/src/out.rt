//! Bytes that are written one after the other.
ghost use Rattle.std.specs.Prelude.{◌≡◌, ◌++◌, ◌∷◌, [], IfOk};

use crate::said::Said;
use sm_model::{Bytes, NoMemory};
use std::alloc::Global;
use std::marker::Model;

/// What was written until now, which contracts see as the bytes. A write that finds no memory is noted, and nothing is
/// kept from then on, so that memory is asked about once, at the end, and not at each write.
#[derive(Drop)]
pub struct Out {
    bytes: Vec<u8>,
    /// Whether there was memory for all of it.
    whole: bool,
    said: Said,
}

impl Model for Out {
    ghost use Rattle.std.specs.Prelude.{◌≡◌, ℕ, List, IsTrue};

    ghost Value = { List ℕ };

    ghost view = { λ out. out.said.value };

    ghost invariant = { λ out. IsTrue out.whole → out.bytes.items ≡ out.said.value };
}

impl Out {
    /// Nothing was written yet. It takes no memory.
    pub fn new(alloc: Global) -> Out
        ensures { result ≡ [] }
    {
        Out {
            bytes: Vec::new(alloc),
            whole: true,
            said: Said::nothing(),
        }
    }

    /// Writes a byte.
    pub fn push(&mut self, byte: u8)
        ensures { self.new ≡ self.old ++ byte ∷ [] }
    {
        self.extend(&[byte]);
    }

    /// Writes bytes.
    pub fn extend(&mut self, bytes: &[u8])
        ensures { self.new ≡ self.old ++ bytes.now }
    {
        let Out {
            bytes: kept,
            whole,
            said,
        } = self;
        said.note(bytes);
        if *whole {
            *whole = kept.extend_from_slice(bytes).is_ok();
        }
    }

    /// The bytes that were written.
    pub fn into_bytes(self) -> Result<Bytes, NoMemory>
        ensures { IfOk result (λ bytes. bytes ≡ self) }
    {
        let Out {
            bytes,
            whole,
            said: _,
        } = self;
        if whole {
            Ok(Bytes::new(bytes))
        } else {
            Err(NoMemory)
        }
    }
}
