//! Connections that only clauses see.
ghost use Rattle.std.specs.Prelude.{◌≡◌, ◌++◌, ◌∷◌, [], List};
ghost use Rattle.std.specs.Borrow.{ftrue};
ghost use Rattle.sm_io.specs.declared.memory_conn.MemoryConn.{MemoryConn};

use crate::memory_conn::MemoryConn;
use std::marker::Model;

/// Connections as they were when they were handed out. It has no bytes: only clauses see them.
#[derive(Drop)]
pub struct Handed {
    pub ghost value: { List MemoryConn },
}

impl Model for Handed {
    ghost also_owns = { λ _. ftrue };
}

// It owns nothing.
unsafe impl Send for Handed {}

impl Handed {
    pub(crate) fn none() -> Handed
        ensures { result.value ≡ [] }
    {
        Handed {}
    }

    pub(crate) fn plus(_before: &Handed, _conn: &MemoryConn) -> Handed
        ensures { result.value ≡ _before.now.value ++ _conn.now ∷ [] }
    {
        Handed {}
    }
}
