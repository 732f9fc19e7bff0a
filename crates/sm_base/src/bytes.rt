//! Bytes.
ghost use Rattle.std.specs.Prelude.{◌≡◌, ℕ, ◌↔◌, ◌++◌, [], IsTrue, IfOk, OnOk, OnErr, length};

use crate::memory::{Copied, NoMemory};
use std::alloc::Global;
use std::marker::Model;
use std::sync::ArcSlice;

/// Where bytes lie.
#[derive(Drop)]
enum Kept {
    Owned(Vec<u8>),
    /// With their copies.
    Shared(ArcSlice<u8>),
}

/// Bytes, which contracts see as their list. Copies of a copy share its bytes, so that only the first copy of bytes
/// copies each of them.
pub struct Bytes {
    kept: Kept,
}

/// Where bytes lie is looked at here alone: who lets them go makes one call.
impl Drop for Bytes {
    fn drop(self) {
        let Bytes { kept } = self;
        drop(kept);
    }
}

impl Model for Bytes {
    ghost use Rattle.std.specs.Prelude.{List, ℕ};
    ghost use Rattle.sm_base.specs.Octets.{octets};

    ghost Value = { List ℕ };

    ghost view = { λ b. octets b.kept };
}

impl Bytes {
    /// No bytes. It takes no memory.
    pub fn empty(alloc: Global) -> Bytes
        ensures { result ≡ [] }
    {
        Bytes::new(Vec::new(alloc))
    }

    /// The bytes of a vector. It takes no memory.
    pub fn new(vec: Vec<u8>) -> Bytes
        ensures { result ≡ vec.items }
    {
        Bytes {
            kept: Kept::Owned(vec),
        }
    }

    /// A copy of a slice.
    pub fn from_slice(alloc: Global, bytes: &[u8]) -> Result<Bytes, NoMemory>
        ensures { IfOk result (λ b. b ≡ bytes.now) }
    {
        Ok(Bytes::new(Vec::from_slice(alloc, bytes)?))
    }

    /// Adds bytes at the end. Those that are shared are copied first. Without memory the bytes stay.
    pub fn extend_from_slice(&mut self, alloc: Global, bytes: &[u8]) -> Result<(), NoMemory>
        ensures ok { OnOk result (self.new ≡ self.old ++ bytes.now) }
        ensures err { OnErr result (self.new ≡ self.old) }
    {
        match &mut self.kept {
            Kept::Owned(vec) => vec.extend_from_slice(bytes)?,
            Kept::Shared(shared) => {
                let mut vec = Vec::from_slice(alloc, shared.as_slice())?;
                vec.extend_from_slice(bytes)?;
                self.kept = Kept::Owned(vec);
            }
        }
        Ok(())
    }

    pub fn as_slice(&self) -> &[u8]
        ensures { result.now ≡ self.now }
    {
        match &self.kept {
            Kept::Owned(vec) => vec.as_slice(),
            Kept::Shared(shared) => shared.as_slice(),
        }
    }

    pub fn len(&self) -> usize
        ensures { result ≡ length self.now }
    {
        self.as_slice().len()
    }

    pub fn is_empty(&self) -> bool
        ensures { IsTrue result ↔ (length self.now ≡ 0) }
    {
        self.len() == 0
    }

    /// Whether both have the same bytes.
    pub fn equals(&self, other: &Bytes) -> bool
        ensures { IsTrue result ↔ (self.now ≡ other.now) }
    {
        self.as_slice() == other.as_slice()
    }
}

impl Copied for Bytes {
    fn copy(&self, alloc: Global) -> Result<Bytes, NoMemory> {
        let shared = match &self.kept {
            Kept::Owned(vec) => ArcSlice::from_slice(alloc, vec.as_slice())?,
            Kept::Shared(shared) => shared.clone()?,
        };
        Ok(Bytes {
            kept: Kept::Shared(shared),
        })
    }
}

impl PartialEq for Bytes {
    ghost use Rattle.std.specs.Cmp.Lexicographic.{pointwise, nat_list_eq_equiv};
    ghost use Rattle.std.specs.Cmp.{partial_equiv_from_equiv};
    ghost use Rattle.std.specs.Prelude.{nat_eq};

    ghost eq = { pointwise nat_eq };

    ghost laws = { partial_equiv_from_equiv nat_list_eq_equiv };

    fn eq(&self, other: &Bytes) -> bool {
        self.as_slice() == other.as_slice()
    }
}
