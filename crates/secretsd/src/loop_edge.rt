//! The edge of a connection worker over its event loop.
ghost use Rattle.std.specs.Prelude.{◌≡◌, ◌≤◌, None};
ghost use Rattle.sm_base.specs.Faults.{Rose};
ghost use Rattle.sm_io.specs.Edge.{HandsOut, NoneLeft, OnAcceptEnd, OnAcceptFailed, StaysUnlessAcceptFailed, TakesFirst};

use crate::event_loop::EventLoop;
use crate::visit::Visit;
use sm_io::{Accepted, Edge};
use std::sync::Wait;

/// An edge that hands out the visits of an event loop. It tells nothing, never answers that none is left, and counts
/// how often no connection could be accepted any more.
#[derive(Drop)]
pub struct LoopEdge<'a, H> {
    connections: EventLoop<'a, H>,
    faults: u64,
}

impl<'a, H> LoopEdge<'a, H> {
    /// The edge over an event loop, without a fault so far.
    pub fn new(connections: EventLoop<'a, H>) -> LoopEdge<'a, H> {
        LoopEdge {
            connections,
            faults: 0,
        }
    }
}

impl<'a, H: Wait, N: Drop> Edge<N> for LoopEdge<'a, H> {
    type C = Visit<'a>;

    ghost left = { λ _. None };

    ghost handed = { λ _. None };

    ghost back = { λ _. None };

    ghost edge_faults = { λ e. e.faults };

    fn accept(&mut self) -> Accepted<Visit<'a>>
        ensures first { TakesFirst result None None }
        ensures handed { HandsOut result None None }
        ensures end { OnAcceptEnd result (NoneLeft {C = Visit} None) }
        ensures failed { OnAcceptFailed result (Rose self.old.faults self.new.faults) }
        ensures later { self.old.faults ≤ self.new.faults }
        ensures no_other { StaysUnlessAcceptFailed result self.old.faults self.new.faults }
    {
        match self.connections.next_visit() {
            Ok(visit) => Accepted::Conn(visit),
            Err(_) => {
                self.connections.close_all();
                self.faults = self.faults.saturating_add(1);
                Accepted::Failed
            }
        }
    }

    fn done(&mut self, visit: Visit<'a>, _end: N)
        ensures faults { self.new.faults ≡ self.old.faults }
    {
        self.connections.end_visit(visit);
    }

    ghost no_more = { λ _. tt };
}
