//! A connection worker.
ghost use Rattle.std.specs.Prelude.{◌≡◌, ◌≤◌, ◌∷◌, []};
ghost use Rattle.sm_account.specs.Accounts.{base};
ghost use Rattle.sm_io.specs.Edge.{IsFewer, told_more};
ghost use Rattle.sm_lock.specs.Handles.{built_with, number, seen, IsIn};
ghost use Rattle.sm_lock.specs.Story.{Grows};
ghost use Rattle.sm_workers.specs.ConnectionWorkers.{ConnectionWorkerDid, EndsConnectionWorker};
ghost use Rattle.sm_session.specs.Views.{sides_by, local_state_by};
ghost use Rattle.sm_workers.specs.Views.{edge_by};
ghost use Rattle.sm_workers.specs.Visits.{Visit};

use crate::worker::ConnEnd;
use sm_account::Account;
use sm_disk::Disk;
use sm_io::{Accepted, Clock, Conn, Edge, Words};
use sm_lock::{Gate, Pass, Storied};
use sm_principal::People;
use sm_rotator::Rotator;
use sm_session::serve;
use std::alloc::Global;
use std::sync::Wait;

/// What a task leaves: the pass again, and whether the edge of a connection worker failed.
pub(crate) struct Left<A: Storied> {
    pub pass: Pass<A>,
    pub failed: bool,
}

/// Serves the connections of an edge one after the other, until none is left or the edge fails. Then it closes its
/// connection worker.
pub(crate) fn serve_connections<E: Edge<ConnEnd>, C: Clock, W: Words, D: Disk, R: Rotator, H: Wait>(
    rt: &H,
    alloc: Global,
    gate: &Gate<Account<D, R>>,
    pass: Pass<Account<D, R>>,
    edge: &mut E,
    clock: &mut C,
    words: &mut W,
    people: &People,
) -> Left<Account<D, R>>
    requires { IsIn gate.now pass }
    ensures gate { IsIn gate.now result.pass }
    ensures number { number result.pass ≡ number pass }
    ensures did { ConnectionWorkerDid (sides_by E.C.Source E.C.Sink) people.now
        (record { base = base (built_with gate.now); seat = number pass })
        (edge_by E.Edge edge.old) (edge_by E.Edge edge.new)
        (local_state_by C.Clock W.Words (seen pass) clock.old words.old)
        (local_state_by C.Clock W.Words (seen result.pass) clock.new words.new) }
    ensures ends { EndsConnectionWorker result.failed (edge_by E.Edge edge.old) (edge_by E.Edge edge.new) }
{
    let mut pass = pass;
    for _ in rt.forever() {
        match edge.accept() {
            Accepted::Conn(conn) => {
                pass = visit(rt, alloc, gate, pass, edge, conn, clock, words, people);
            }
            Accepted::End => {
                return Left {
                    pass: close_door(rt, gate, pass),
                    failed: false,
                };
            }
            Accepted::Failed => {
                return Left {
                    pass: close_door(rt, gate, pass),
                    failed: true,
                };
            }
            Accepted::Memory => clock.pause(),
        }
    }
    unreachable!()
}

/// Serves a connection that an edge handed out, and hands it back.
fn visit<E: Edge<ConnEnd>, C: Clock, W: Words, D: Disk, R: Rotator, H: Wait>(
    rt: &H,
    alloc: Global,
    gate: &Gate<Account<D, R>>,
    pass: Pass<Account<D, R>>,
    edge: &mut E,
    conn: E::C,
    clock: &mut C,
    words: &mut W,
    people: &People,
) -> Pass<Account<D, R>>
    requires gate { IsIn gate.now pass }
    requires fewer { IsFewer (E.handed edge.old) (E.back edge.old) }
    ensures gate { IsIn gate.now result }
    ensures number { number result ≡ number pass }
    ensures visits { (visit : Visit (sides_by E.C.Source E.C.Sink) people.now
        (record { base = base (built_with gate.now); seat = number pass }))
        × (visit.conn ≡ conn)
        × (E.back edge.new ≡ told_more (E.back edge.old) (visit.came, visit.note))
        × (visit.from ≡ local_state_by C.Clock W.Words (seen pass) clock.old words.old)
        × (visit.to ≡ local_state_by C.Clock W.Words (seen result) clock.new words.new) }
    ensures left { E.left edge.new ≡ E.left edge.old }
    ensures handed { E.handed edge.new ≡ E.handed edge.old }
    ensures faults { E.edge_faults edge.new ≡ E.edge_faults edge.old }
    ensures random_later { W.faults words.old ≤ W.faults words.new }
{
    let mut conn = conn;
    let served = serve(rt, alloc, gate, pass, &mut conn, clock, words, people);
    edge.done(
        conn,
        ConnEnd {
            trace: served.trace,
            ended: served.ended,
        },
    );
    served.pass
}

/// Waits for the account, and closes a door of it.
fn close_door<D: Disk, R: Rotator, H: Wait>(
    rt: &H,
    gate: &Gate<Account<D, R>>,
    pass: Pass<Account<D, R>>,
) -> Pass<Account<D, R>>
    requires { IsIn gate.now pass }
    ensures gate { IsIn gate.now result }
    ensures number { number result ≡ number pass }
    ensures seen { Grows (number pass ∷ []) (seen pass) (seen result) }
{
    let mut held = gate.enter(rt, pass);
    held.value().close_door();
    gate.leave(held)
}
