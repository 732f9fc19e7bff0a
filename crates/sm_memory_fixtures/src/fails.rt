//! Which calls fail.
use sm_base::{Fails, List, NoMemory};
use std::alloc::Global;

/// All calls from this one on, or none.
pub fn fails_from(alloc: Global, from: Option<u64>) -> Fails {
    Fails {
        calls: List::empty(alloc),
        from,
    }
}

/// These calls, and perhaps all from one on.
pub fn fails_of(alloc: Global, calls: &[u64], from: Option<u64>) -> Result<Fails, NoMemory> {
    let calls = List::new(Vec::from_slice(alloc, calls)?);
    Ok(Fails { calls, from })
}

/// This call, alone or with all later ones.
pub fn fails_at(alloc: Global, call: u64, later: bool) -> Result<Fails, NoMemory> {
    let from = if later { Some(call) } else { None };
    fails_of(alloc, &[call], from)
}
