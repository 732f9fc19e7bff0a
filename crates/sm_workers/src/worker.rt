//! Workers.
ghost use Rattle.std.specs.Prelude.{◌≡◌, None, Some};
ghost use Rattle.sm_workers.specs.declared.worker.Task.TheVariants.{Door, Turner};

use sm_account::Account;
use sm_disk::Disk;
use sm_lock::{Pass, Storied};
use sm_rotator::Rotator;
use sm_session::{Ended, Trace};

/// What came of a connection: the trace of its session, and how it ended.
#[derive(Drop)]
pub struct ConnEnd {
    pub trace: Trace,
    pub ended: Ended,
}

/// What a worker has to do.
#[derive(Drop)]
pub enum Task<E, R> {
    /// It serves the connections that this edge hands out.
    Door(E),
    /// It takes rotation turns with this rotator.
    Turner(R),
}

/// One that does its task in a thread, with a clock and a random source of its own.
#[derive(Drop)]
pub struct WorkerBy<E, C, W, R, A: Storied> {
    pub task: Task<E, R>,
    pub clock: C,
    pub words: W,
    /// The right to enter the lock, while the worker does not work.
    pub pass: Option<Pass<A>>,
    /// Whether the edge of a connection worker failed.
    pub failed: bool,
}

/// A worker at an account.
pub type Worker<E, D: Disk, C, W, R: Rotator> = WorkerBy<E, C, W, R, Account<D, R>>;

impl<E, C, W, R, A: Storied> WorkerBy<E, C, W, R, A> {
    ghost use Rattle.sm_workers.specs.Workers.{HasPass, IsFresh};

    /// A worker that serves the connections of an edge. It takes no memory.
    pub fn door(edge: E, clock: C, words: W) -> WorkerBy<E, C, W, R, A>
        ensures task { result.task ≡ Door edge }
        ensures outside { (result.clock ≡ clock) × (result.words ≡ words) }
        ensures fresh { IsFresh result }
    {
        WorkerBy {
            task: Task::Door(edge),
            clock,
            words,
            pass: None,
            failed: false,
        }
    }

    /// A worker that takes rotation turns. It takes no memory.
    pub fn turner(rotator: R, clock: C, words: W) -> WorkerBy<E, C, W, R, A>
        ensures task { result.task ≡ Turner rotator }
        ensures outside { (result.clock ≡ clock) × (result.words ≡ words) }
        ensures fresh { IsFresh result }
    {
        WorkerBy {
            task: Task::Turner(rotator),
            clock,
            words,
            pass: None,
            failed: false,
        }
    }

    /// Takes the pass out.
    pub(crate) fn take_out(&mut self) -> Pass<A>
        requires { HasPass self.old }
        ensures pass { self.old.pass ≡ Some result }
        ensures left { self.new ≡ record self.old { pass = None } }
    {
        match self.pass.take() {
            Some(pass) => pass,
            None => unreachable!(),
        }
    }

    /// Puts a pass in.
    pub(crate) fn put_in(&mut self, pass: Pass<A>)
        ensures { self.new ≡ record self.old { pass = Some pass } }
    {
        self.pass = Some(pass);
    }
}
