//! Which calls of a memory form are told to fail.
ghost use Rattle.std.specs.Prelude.{◌≡◌, [], None};
ghost use Rattle.sm_base.specs.Fails.{is_told};

use crate::list::List;
use crate::memory::{Copied, NoMemory};
use std::alloc::Global;

/// The calls that are told to fail: those whose numbers, counted from 1, are listed, and where `from` is
/// there each one from that number on.
#[derive(Drop)]
pub struct Fails {
    pub calls: List<u64>,
    pub from: Option<u64>,
}

impl Fails {
    /// No call is told to fail. It takes no memory.
    pub fn never(alloc: Global) -> Fails
        ensures { (result.calls ≡ []) × (result.from ≡ None) }
    {
        Fails {
            calls: List::empty(alloc),
            from: None,
        }
    }

    /// Whether the call with this number is told to fail.
    pub fn is_told(&self, call: u64) -> bool
        ensures { result ≡ is_told self.now call }
    {
        let listed = self.calls.as_slice().contains(&call);
        match self.from {
            Some(from) => listed || from <= call,
            None => listed,
        }
    }
}

impl Copied for Fails {
    fn copy(&self, alloc: Global) -> Result<Fails, NoMemory> {
        Ok(Fails {
            calls: self.calls.copy(alloc)?,
            from: self.from,
        })
    }
}
