//! The bytes that arrived on a connection, and how they are opened and given, a message at a time.
ghost use Rattle.std.specs.Prelude.{◌≡◌, ◌+◌, ◌-◌, ◌↔◌, Bool, ◌++◌, ◌<◌, ◌≤◌, min, length, take, drop, true, IsTrue, OnOk, OnErr, vec_len};
ghost use Rattle.sm_visits.specs.Visits.{nothing_arrived, with_pushed, with_visit, with_given, with_all, MayOpen, Opens};
ghost use Rattle.sm_visits.specs.Standing.{Stands};

use crate::standing::{Standing, find_front};
use sm_base::NoMemory;
use std::alloc::Global;
use std::marker::Model;

/// The most messages of one visit.
pub const VISIT_LIMIT: u32 = 50;

/// The most messages of a connection.
pub const CONNECTION_LIMIT: u32 = 1_000;

/// What comes next on a connection.
#[derive(Clone, Copy, Debug, PartialEq, Eq)]
pub enum Opened {
    /// A whole message, behind which more may come.
    Message,
    /// The last that is given: a message that closes the connection, its 1,000th message, a fault with all that waits
    /// behind it, or, where nothing more comes, what is no whole message (nothing, or a cut one).
    Last,
    /// Nothing now: no message is whole yet, or the visit has had its 50, or the last was given before.
    Nothing,
}

/// What arrived on a connection and was not given yet, which contracts see as a list of bytes and four facts. The bytes
/// stand in a buffer behind those that were given, so that what is left is not moved when bytes are given.
#[derive(Drop)]
pub struct Arrivals {
    alloc: Global,
    buffer: Vec<u8>,
    /// How many bytes at the front of the buffer were given.
    start: usize,
    /// How many of the others are open.
    opened: usize,
    in_visit: u32,
    given: u32,
    over: bool,
}

impl Model for Arrivals {
    ghost use Rattle.std.specs.Prelude.{◌+◌, ◌<◌, ◌≤◌, drop, vec_len, MatchBool};
    ghost use Rattle.sm_visits.specs.Visits.{ArrivalsState, connection_limit};

    ghost Value = { ArrivalsState };

    ghost view = { λ a. record {
      waiting = drop a.start a.buffer.items;
      opened = a.opened;
      in_visit = a.in_visit;
      given = a.given;
      over = a.over;
    } };

    ghost invariant = { λ a. (a.start + a.opened ≤ vec_len a.buffer)
        × MatchBool a.over (a.given ≤ connection_limit) (a.given < connection_limit) };
}

impl Arrivals {
    /// A connection on which nothing arrived. It takes no memory.
    pub fn new(alloc: Global) -> Arrivals
        ensures { result ≡ nothing_arrived }
    {
        Arrivals {
            alloc,
            buffer: Vec::new(alloc),
            start: 0,
            opened: 0,
            in_visit: 0,
            given: 0,
            over: false,
        }
    }

    /// How many bytes wait, with those that are open.
    pub fn len(&self) -> usize
        ensures { result ≡ length self.now.waiting }
    {
        self.buffer.len() - self.start
    }

    /// Whether bytes of what was opened are still to be given.
    pub fn is_open(&self) -> bool
        ensures { IsTrue result ↔ (0 < self.now.opened) }
    {
        0 < self.opened
    }

    /// Whether the last was opened: `open` answers `Nothing` from then on.
    pub fn is_over(&self) -> bool
        ensures { result ≡ self.now.over }
    {
        self.over
    }

    /// Adds bytes behind those that wait. Without memory nothing changes.
    pub fn push(&mut self, bytes: &[u8]) -> Result<(), NoMemory>
        ensures ok { OnOk result (self.new ≡ with_pushed self.old bytes.now) }
        ensures err { OnErr result (self.new ≡ self.old) }
    {
        self.start = without_front(&mut self.buffer, self.start);
        self.buffer.extend_from_slice(bytes)?;
        Ok(())
    }

    /// Begins a visit.
    pub fn begin_visit(&mut self)
        ensures { self.new ≡ with_visit self.old }
    {
        self.in_visit = 0;
    }

    /// Opens what comes next, where nothing is open. `has_ended` says that nothing more comes behind what waits.
    pub fn open(&mut self, has_ended: bool) -> Opened
        requires { self.old.opened ≡ 0 }
        ensures { Opens self.old has_ended result self.new }
    {
        if self.over {
            return Opened::Nothing;
        }
        if VISIT_LIMIT <= self.in_visit {
            return Opened::Nothing;
        }
        match find_front(&self.buffer.as_slice()[self.start..]) {
            Standing::Message(used, closing) => self.open_message(used, closing),
            Standing::Fault(_) => self.open_all(),
            Standing::Partial => {
                if has_ended {
                    self.open_all()
                } else {
                    Opened::Nothing
                }
            }
        }
    }

    /// Opens the message at the front, which takes so many bytes: as the last, where it closes the connection or is its
    /// 1,000th.
    fn open_message(&mut self, used: usize, closing: bool) -> Opened
        requires may { MayOpen self.old }
        requires stands { Stands self.old.waiting (Standing.Message used closing) }
        ensures { (has_ended : Bool) → Opens self.old has_ended result self.new }
    {
        self.opened = used;
        self.in_visit += 1;
        self.given += 1;
        if closing {
            self.over = true;
            return Opened::Last;
        }
        if self.given == CONNECTION_LIMIT {
            self.over = true;
            return Opened::Last;
        }
        Opened::Message
    }

    /// Opens all that waits, as the last.
    fn open_all(&mut self) -> Opened
        ensures all { self.new ≡ with_all self.old }
        ensures last { result ≡ Opened.Last }
    {
        self.opened = self.len();
        self.over = true;
        Opened::Last
    }

    /// Gives the next bytes of what is open, as many as fit, and lets them go. Once nothing waits it holds no memory.
    pub fn give(&mut self, buf: &mut [u8]) -> usize
        ensures count { result ≡ min self.old.opened (length buf.old) }
        ensures bytes { buf.new ≡ take result self.old.waiting ++ drop result buf.old }
        ensures rest { self.new ≡ with_given self.old result }
    {
        let count = self.opened.min(buf.len());
        let end = self.start + count;
        buf[..count].copy_from_slice(&self.buffer.as_slice()[self.start..end]);
        self.opened -= count;
        self.start = end;
        if self.len() < end {
            self.shrink();
        }
        count
    }

    /// Takes as much memory as what waits has bytes, and none where nothing waits. Without memory for that it stays.
    fn shrink(&mut self)
        ensures { self.new ≡ self.old }
    {
        if let Ok(kept) = Vec::from_slice(self.alloc, &self.buffer.as_slice()[self.start..]) {
            self.buffer = kept;
            self.start = 0;
        }
    }
}

/// Leaves out so many bytes at the front of a buffer, where the others are no more than these: so at most one byte is
/// moved for each that was given. How many bytes at the front are still to be left out: no more than the others.
fn without_front(buffer: &mut Vec<u8>, start: usize) -> usize
    requires { start ≤ vec_len buffer.old }
    ensures len { vec_len buffer.new ≡ result + (vec_len buffer.old - start) }
    ensures bytes { drop result buffer.new.items ≡ drop start buffer.old.items }
    ensures few { result ≤ vec_len buffer.old - start }
{
    let kept = buffer.len() - start;
    if start < kept {
        return start;
    }
    buffer.copy_within(start.., 0);
    buffer.truncate(kept);
    0
}
