//! Two that wait for each other, each in a thread of its own.
ghost use Rattle.std.specs.Prelude.{◌≡◌, ◌≤◌, None, Some};
ghost use Rattle.sm_base.specs.Faults.{Rose};
ghost use Rattle.sm_io.specs.Edge.{TakesFirst, HandsOut, NoneLeft, OnAcceptEnd, OnAcceptFailed, told_more};
ghost use Rattle.sm_rotator.specs.Asked.{IfAnswered, OnFailed};
ghost use Rattle.sm_rotator.specs.Same.{may_give};
ghost use Rattle.sm_rotator.specs.Script.{script_answer};
ghost use Rattle.sm_rotator.specs.Told.{TellsAsked};

use sm_io::{Accepted, Edge, MemoryConn, MemoryEdge};
use sm_model::{Answer, Stage};
use sm_rotator::{Asked, Rotator, ScriptRotator, Work};
use sm_workers::ConnEnd;
use std::sync::atomic::{AtomicU64, Ordering};
use std::thread;
use std::time::{Clock, Duration};

/// How often one looks whether the other has come.
const TURNS: u32 = 10_000;

/// How many milliseconds one pauses between two looks.
const PAUSE: u64 = 1;

/// Where two wait for each other: whether the first has come, and whether the second has.
#[derive(Drop)]
pub struct Meeting {
    first: AtomicU64,
    second: AtomicU64,
}

impl Meeting {
    /// Nobody has come.
    pub fn new() -> Meeting {
        Meeting {
            first: AtomicU64::new(0),
            second: AtomicU64::new(0),
        }
    }

    /// The first comes.
    pub fn first_comes(&self) {
        self.first.store(1, Ordering::SeqCst);
    }

    /// The second comes.
    pub fn second_comes(&self) {
        self.second.store(1, Ordering::SeqCst);
    }

    /// Waits for the first, and says whether it came.
    pub fn awaits_first<R: Clock>(&self, rt: &R) -> bool {
        has_come(rt, &self.first)
    }

    /// Waits for the second, and says whether it came.
    pub fn awaits_second<R: Clock>(&self, rt: &R) -> bool {
        has_come(rt, &self.second)
    }
}

/// Looks so often whether one has come, with a pause behind each look.
fn has_come<R: Clock>(rt: &R, word: &AtomicU64) -> bool {
    for _ in 0..TURNS {
        if word.load(Ordering::SeqCst) > 0 {
            return true;
        }
        thread::sleep(rt, Duration::from_millis(PAUSE));
    }
    false
}

/// A rotator that holds its answer at one stage until the other one has come. The first secret is the first of the
/// two, and any later one the second. Where the other does not come, the step fails.
#[derive(Drop)]
pub struct Holding<'a> {
    pub rt: &'a HostRuntime,
    pub meeting: &'a Meeting,
    pub stage: Stage,
    pub script: ScriptRotator,
}

impl<'a> Holding<'a> {
    /// Comes, and waits for the other.
    fn meets(&self, secret: u64) -> bool {
        if secret == 0 {
            self.meeting.first_comes();
            self.meeting.awaits_second(self.rt)
        } else {
            self.meeting.second_comes();
            self.meeting.awaits_first(self.rt)
        }
    }
}

impl<'a> Rotator for Holding<'a> {
    ghost use Rattle.std.specs.Prelude.{refl};

    ghost replies = { λ arn at current pending answer. may_give (script_answer at) answer };

    ghost faults = { λ rotator. rotator.script.calls.faults };

    ghost told = { λ rotator. None };

    fn ask(&mut self, work: &Work) -> Asked {
        if work.at.stage == self.stage && !self.meets(work.secret) {
            self.script.calls.count_fault();
            return Asked::Answered(Answer::Failed);
        }
        self.script.ask(work)
    }

    ghost may_fail = { λ arn at current pending. refl };
}

/// What an edge has to do with a meeting.
#[derive(Drop)]
pub enum Part {
    /// Nothing.
    Apart,
    /// It is the second of the two.
    Second,
    /// It keeps its door open until both have come: a rotation worker that finds no door open ends, and could come no
    /// more.
    Host,
}

/// An edge in memory. Where it is the second, it hands out a connection only once the first has come, and comes itself
/// when the connection was served. Where it is the host, it waits for both when a connection was served.
#[derive(Drop)]
pub struct Watched<'a> {
    pub rt: &'a HostRuntime,
    pub meeting: &'a Meeting,
    pub part: Part,
    pub edge: MemoryEdge<ConnEnd>,
}

impl<'a> Watched<'a> {
    /// Waits for the first, where it is the second.
    fn waits(&self) {
        match self.part {
            Part::Second => {
                let _ = self.meeting.awaits_first(self.rt);
            }
            Part::Apart | Part::Host => {}
        }
    }

    /// Comes, where it is the second, or waits for both, where it is the host.
    fn comes(&self) {
        match self.part {
            Part::Second => self.meeting.second_comes(),
            Part::Host => {
                let _ = self.meeting.awaits_first(self.rt);
                let _ = self.meeting.awaits_second(self.rt);
            }
            Part::Apart => {}
        }
    }
}

impl<'a> Edge<ConnEnd> for Watched<'a> {
    type C = MemoryConn;

    ghost left = { λ e. Some e.edge.conns.items };

    ghost handed = { λ e. Some e.edge.handed.value };

    ghost back = { λ e. Some e.edge.back.items };

    ghost edge_faults = { λ e. e.edge.calls.faults };

    fn accept(&mut self) -> Accepted<MemoryConn> {
        self.waits();
        self.edge.accept()
    }

    fn done(&mut self, conn: MemoryConn, end: ConnEnd) {
        self.edge.done(conn, end);
        self.comes();
    }

    ghost no_more = { λ e. e.edge.fewer };
}
