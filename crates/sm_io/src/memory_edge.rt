//! An edge in memory.
ghost use Rattle.std.specs.Prelude.{◌≡◌, ◌<◌, ◌≤◌, [], ◌++◌, ◌∷◌, length, Some, vec_len, vec_capacity, IsTrue};
ghost use Rattle.sm_base.specs.Faults.{Rose};
ghost use Rattle.sm_io.specs.Calls.{no_calls, fails_next};
ghost use Rattle.sm_io.specs.Edge.{TakesFirst, HandsOut, NoneLeft, OnAcceptEnd, OnAcceptFailed, StaysUnlessAcceptFailed, told_more};

use crate::calls::Calls;
use crate::edge::{Accepted, Edge};
use crate::handed::Handed;
use crate::memory_conn::MemoryConn;
use sm_base::{Fails, List};
use std::alloc::Global;

/// An edge that hands out given connections in order, unless an accept is told to fail, and keeps those that come back.
/// An accept makes the room in which its connection comes back.
#[derive(Drop)]
pub struct MemoryEdge<N> {
    conns: Vec<MemoryConn>,
    handed: Handed,
    out: usize,
    back: Vec<(MemoryConn, N)>,
    calls: Calls,
    ghost counted: { out ≡ length handed.value },
    ghost fewer: { length back.items ≤ length handed.value },
    ghost room: { out ≤ vec_capacity back },
}

impl<N> MemoryEdge<N> {
    /// An edge of these connections. It takes no memory.
    pub fn new(alloc: Global, conns: List<MemoryConn>, fails: Fails) -> MemoryEdge<N>
        ensures left { result.conns.items ≡ conns }
        ensures none { (result.handed.value ≡ []) × (result.back.items ≡ []) }
        ensures calls { result.calls ≡ no_calls fails }
    {
        MemoryEdge {
            conns: conns.into_vec(),
            handed: Handed::none(),
            out: 0,
            back: Vec::new(alloc),
            calls: Calls::new(fails),
        }
    }

    /// The connections that came back, each with its note.
    pub fn back(&self) -> &[(MemoryConn, N)]
        ensures { result.now ≡ self.now.back.items }
    {
        self.back.as_slice()
    }
}

impl<N> Edge<N> for MemoryEdge<N> {
    type C = MemoryConn;

    ghost left = { λ e. Some e.conns.items };

    ghost handed = { λ e. Some e.handed.value };

    ghost back = { λ e. Some e.back.items };

    ghost edge_faults = { λ e. e.calls.faults };

    fn accept(&mut self) -> Accepted<MemoryConn>
        ensures first { TakesFirst result (Some self.old.conns.items) (Some self.new.conns.items) }
        ensures handed { HandsOut result (Some self.old.handed.value) (Some self.new.handed.value) }
        ensures back { Some self.new.back.items ≡ Some self.old.back.items }
        ensures end { OnAcceptEnd result (NoneLeft (Some self.old.conns.items)) }
        ensures failed { OnAcceptFailed result (Rose self.old.calls.faults self.new.calls.faults) }
        ensures later { self.old.calls.faults ≤ self.new.calls.faults }
        ensures no_other { StaysUnlessAcceptFailed result self.old.calls.faults self.new.calls.faults }

        // Exactly which accept fails.
        ensures told { IsTrue (fails_next self.old.calls) → result ≡ Accepted.Failed }
        ensures only_told { OnAcceptFailed result (IsTrue (fails_next self.old.calls)) }
    {
        if self.calls.next_fails() {
            self.calls.count_fault();
            return Accepted::Failed;
        }
        self.calls.count_call();
        if self.conns.is_empty() {
            return Accepted::End;
        }
        let Some(out) = self.out.checked_add(1) else {
            return Accepted::Memory;
        };
        if self.back.reserve(out - self.back.len()).is_err() {
            return Accepted::Memory;
        }
        let conn = self.conns.remove(0);
        let MemoryEdge {
            handed,
            out: count,
            ..
        } = self;
        *handed = Handed::plus(handed, &conn);
        *count = out;
        Accepted::Conn(conn)
    }

    fn done(&mut self, conn: MemoryConn, end: N)
        requires { length self.old.back.items < length self.old.handed.value }
        ensures back { Some self.new.back.items ≡ told_more (Some self.old.back.items) (conn, end) }
        ensures left { Some self.new.conns.items ≡ Some self.old.conns.items }
        ensures handed { Some self.new.handed.value ≡ Some self.old.handed.value }
        ensures faults { self.new.calls.faults ≡ self.old.calls.faults }
    {
        self.back.push_reserved((conn, end));
    }

    ghost no_more = { λ e. e.fewer };
}
