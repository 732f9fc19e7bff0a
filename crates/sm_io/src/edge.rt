//! Where connections come from.
ghost use Rattle.std.specs.Prelude.{◌≡◌, ◌≤◌, ℕ, List, Option};
ghost use Rattle.sm_base.specs.Faults.{Rose};
ghost use Rattle.sm_io.specs.Edge.{TakesFirst, HandsOut, NoneLeft, OnAcceptEnd, OnAcceptFailed, StaysUnlessAcceptFailed, told_more, IsFewer, IsNoMore};

use crate::conn::Conn;

/// What an accept answers: a connection, that none is left, that it failed, or that there was no memory.
#[derive(Drop)]
pub enum Accepted<C> {
    Conn(C),
    End,
    Failed,
    Memory,
}

/// A source of connections, each of which comes back beside a note of how it ended.
pub trait Edge<N> {
    /// What is handed out.
    type C: Conn;

    /// The connections that are left, where it tells them.
    ghost left: { Self → Option (List Self.C) };

    /// Those that were handed out, in their order and as they were then, where it tells them.
    ghost handed: { Self → Option (List Self.C) };

    /// Those that came back, each as it came and with its note, where it tells them.
    ghost back: { Self → Option (List (Self.C × N)) };

    /// How often it has failed. At 2^64 - 1 the count stands.
    ghost edge_faults: { Self → ℕ };

    /// Hands out the first connection that is left. The count of faults stays with every answer but `Failed`,
    /// so that no failure is left out of the answer.
    fn accept(&mut self) -> Accepted<Self::C>
        ensures first { TakesFirst result (left self.old) (left self.new) }
        ensures handed { HandsOut result (handed self.old) (handed self.new) }
        ensures back { back self.new ≡ back self.old }
        ensures end { OnAcceptEnd result (NoneLeft (left self.old)) }
        ensures failed { OnAcceptFailed result (Rose (edge_faults self.old) (edge_faults self.new)) }
        ensures later { edge_faults self.old ≤ edge_faults self.new }
        ensures no_other { StaysUnlessAcceptFailed result (edge_faults self.old) (edge_faults self.new) };

    /// Takes a connection back. It takes no memory.
    fn done(&mut self, conn: Self::C, end: N)
        requires { IsFewer (handed self.old) (back self.old) }
        ensures back { back self.new ≡ told_more (back self.old) (conn, end) }
        ensures left { left self.new ≡ left self.old }
        ensures handed { handed self.new ≡ handed self.old }
        ensures faults { edge_faults self.new ≡ edge_faults self.old };

    /// Never more came back than were handed out.
    ghost no_more: { (edge : Self) → IsNoMore (handed edge) (back edge) };
}
