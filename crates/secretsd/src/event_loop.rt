//! The event loop of one connection worker: it serves many connections. It waits for one of them
//! only while that is the only one, and then for a millisecond at most.

use crate::accepting::{Remedy, remedy_of};
use crate::client::{Client, Turn};
use crate::connections::Connections;
use crate::request_log::RequestLog;
use crate::visit::Visit;
use mio::event::Event;
use mio::unix::SourceFd;
use mio::{Events, Interest, Poll, Token};
use sm_model::NoMemory;
use sm_visits::{ConnectionTable, HandedOut};
use std::alloc::Global;
use std::collections::VecDeque;
use std::io;
use std::io::ErrorKind;
use std::net::{TcpListener, TcpStream};
use std::os::fd::AsRawFd;
use std::sync::Wait;
use std::time::{Clock, Duration};

/// The token of the listener. Those of connections are their places, which are smaller.
const LISTENER: Token = Token(usize::MAX);

/// How many events a poll gives at most.
const EVENTS: usize = 1_024;

/// How many polls in a row may be full before a connection whose time is over is given up without asking once more
/// whether it is ready.
const FULL_POLLS: u32 = 16;

/// How many bytes are read at once.
const BUFFER: usize = 65_536;

/// How many connections are accepted in a row before those that are there have their turn.
const ACCEPTS: u32 = 64;

/// For how many milliseconds at most a worker with one connection serves it without asking what else is ready.
const ALONE: u64 = 1;

/// How many milliseconds are waited where an accept may succeed later, or another worker has fewer connections.
const SHORT: u64 = 1;

/// How many milliseconds are waited where the system lacks something for an accept.
const PAUSE: u64 = 100;

/// After how many short waits a worker accepts though others have fewer connections.
const PATIENCE: u32 = 10;

/// After how many failures in a row, each of which was its peer's, is waited before the next accept.
const TRIES: u32 = 1_000;

/// Of so many accepts in a row that fail for lack of files, the first closes an idle connection: it may not help.
const TURNS_OF_REFUSALS: u32 = 10;

/// The connections of one worker. None of them is waited for: a connection that has whole messages is handed out for a
/// visit, and all others stay.
#[derive(Drop)]
pub struct EventLoop<'a, H> {
    rt: &'a HostRuntime,
    threads: &'a H,
    connections: &'a Connections<'a>,
    /// Whether each request gets a line.
    log: bool,
    poll: Poll,
    events: Events,
    listener: &'a TcpListener,
    /// The connections by their places. One is handed out at a time.
    clients: ConnectionTable<Box<Client<'a>>>,
    /// The places of those that are to have a turn, and how many of these have it before the next poll.
    ready: VecDeque<usize>,
    turns: usize,
    /// The place of the connection whose visit ended last, where nothing is to be done for it but to wait.
    served: Option<usize>,
    /// A connection is alone with its worker until this moment.
    next_poll: Duration,
    buffer: Vec<u8>,
    /// How many bytes are held for all of them.
    held: usize,
    /// No connection is to be given up before this moment.
    next_look: Duration,
    /// What the clock read last.
    now: Duration,
    /// How many polls in a row gave as many events as one may, so that further connections may be ready.
    full_polls: u32,
    /// Whether connections may wait at the listener, and when the next one is accepted at the earliest.
    may_accept: bool,
    next_accept: Duration,
    declined: u32,
    refused: u32,
}

impl<'a, H: Wait> EventLoop<'a, H> {
    /// An event loop without connections, over a listener that doesn't block.
    pub fn new(
        rt: &'a HostRuntime,
        threads: &'a H,
        connections: &'a Connections<'a>,
        listener: &'a TcpListener,
        log: bool,
    ) -> io::Result<EventLoop<'a, H>> {
        let alloc = rt.alloc();
        let poll = Poll::new(rt)?;
        poll.registry().register(
            &mut SourceFd(&listener.as_raw_fd()),
            LISTENER,
            Interest::READABLE,
        )?;
        Ok(EventLoop {
            rt,
            threads,
            connections,
            log,
            poll,
            events: Events::with_capacity(alloc, EVENTS)?,
            listener,
            clients: ConnectionTable::new(alloc),
            ready: VecDeque::new(alloc),
            turns: 0,
            served: None,
            next_poll: Duration::ZERO,
            buffer: Vec::from_elem(alloc, 0, BUFFER)?,
            held: 0,
            next_look: Duration::MAX,
            now: Duration::ZERO,
            full_polls: 0,
            may_accept: true,
            next_accept: Duration::ZERO,
            declined: 0,
            refused: 0,
        })
    }

    /// The next connection that has whole messages, or the reason where no connection can be accepted any more.
    pub fn next_visit(&mut self) -> io::Result<Visit<'a>> {
        self.connections.say_welcome(self.listener);
        for _ in self.threads.forever() {
            if let Some(visit) = self.next_ready() {
                return Ok(visit);
            }
            if let Some(visit) = self.wait_alone() {
                return Ok(visit);
            }
            self.poll()?;
            self.accept_some()?;
            self.turns = self.ready.len();
        }
        unreachable!()
    }

    /// Takes a connection back.
    pub fn end_visit(&mut self, visit: Visit<'a>) {
        let has_failed = visit.has_failed();
        let mut handed = visit.handed;
        if has_failed {
            self.forget(handed);
            return;
        }
        self.read_clock();
        let has_more = handed.connection.end_visit(self.now);
        let place = handed.place();
        if has_more && handed.connection.stop_waiting().is_err() {
            self.forget(handed);
            return;
        }
        self.keep(handed);
        if has_more {
            self.give_turn(place);
        } else {
            self.served = Some(place);
        }
    }

    /// Waits a moment for the next message of the connection whose visit ended last, where the worker has no other one
    /// and has asked what else is ready not long ago.
    fn wait_alone(&mut self) -> Option<Visit<'a>> {
        let place = self.served.take()?;
        let mut handed = self.take(place)?;
        let is_alone = self.clients.len() == 1 && self.ready.is_empty() && !self.may_accept;
        if !is_alone || self.now >= self.next_poll {
            if handed.connection.stop_waiting().is_ok() {
                self.keep(handed);
            } else {
                self.forget(handed);
            }
            return None;
        }
        let turn = handed.connection.wait(self.buffer.as_mut_slice(), self.now);
        self.end_turn(handed, turn)
    }

    /// Gives those their turn that are to have one before the next poll, until one has messages to be answered.
    fn next_ready(&mut self) -> Option<Visit<'a>> {
        for _ in 0..self.turns {
            self.turns = self.turns.saturating_sub(1);
            let place = self.ready.pop_front()?;
            if let Some(visit) = self.turn(place) {
                return Some(visit);
            }
        }
        None
    }

    /// Gives the connection at a place its turn.
    fn turn(&mut self, place: usize) -> Option<Visit<'a>> {
        let mut handed = self.take(place)?;
        let turn = handed.connection.turn(self.buffer.as_mut_slice(), self.now);
        self.end_turn(handed, turn)
    }

    /// Does what a connection's turn came to, and gives the visit where it has messages.
    fn end_turn(&mut self, handed: HandedOut<Box<Client<'a>>>, turn: Turn) -> Option<Visit<'a>> {
        let place = handed.place();
        match turn {
            Turn::Visit => return Some(Visit::new(handed)),
            Turn::Wait => self.keep(handed),
            Turn::Again => {
                self.keep(handed);
                self.give_turn(place);
            }
            Turn::Close => self.forget(handed),
        }
        None
    }

    /// Hands out the connection at a place.
    fn take(&mut self, place: usize) -> Option<HandedOut<Box<Client<'a>>>> {
        let handed = self.clients.take(place)?;
        let count = handed.connection.held();
        self.held = self.held.saturating_sub(count);
        self.connections.let_go(count);
        Some(handed)
    }

    /// Takes a connection back to its place.
    fn keep(&mut self, handed: HandedOut<Box<Client<'a>>>) {
        let count = handed.connection.held();
        let deadline = handed.connection.deadline();
        self.clients.put_back(handed);
        self.note_kept(count, deadline);
    }

    /// Notes how much is held for a connection that is there, and when it is given up.
    fn note_kept(&mut self, count: usize, deadline: Duration) {
        self.held = self.held.saturating_add(count);
        self.connections.hold(count);
        self.next_look = self.next_look.min(deadline);
        if self.connections.holds_too_much(self.held) {
            self.close_largest();
        }
    }

    /// Closes a connection that was handed out.
    fn forget(&mut self, handed: HandedOut<Box<Client<'a>>>) {
        drop(self.clients.remove(handed));
        self.connections.remove();
    }

    /// Closes the connection at a place.
    fn close(&mut self, place: usize) {
        if let Some(handed) = self.take(place) {
            self.forget(handed);
        }
    }

    /// Closes all connections.
    pub fn close_all(&mut self) {
        for place in 0..self.clients.end() {
            self.close(place);
        }
    }

    /// Reads the clock that never goes back. Where it can't be read, time stands still.
    fn read_clock(&mut self) {
        if let Ok(now) = self.rt.monotonic() {
            self.now = now;
        }
    }

    /// Has the connection at a place have a turn. Without memory to note that, it is closed.
    fn give_turn(&mut self, place: usize) {
        if let Some(client) = self.clients.get_mut(place)
            && client.get_ready()
            && self.ready.push_back(place).is_err()
        {
            self.close(place);
        }
    }

    /// Accepts the connections that wait, as far as this worker is to have more.
    fn accept_some(&mut self) -> io::Result<()> {
        for _ in 0..ACCEPTS {
            if !self.may_accept || self.now < self.next_accept || !self.takes_more() {
                return Ok(());
            }
            match self.listener.accept() {
                Ok((stream, _)) => {
                    self.refused = 0;
                    self.connections.note_accepted();
                    self.make_place();
                    let _ = self.welcome(stream);
                }
                Err(error) if error.kind() == ErrorKind::WouldBlock => {
                    self.may_accept = false;
                    self.declined = 0;
                }
                Err(error) if error.kind() == ErrorKind::Interrupted => {}
                Err(error) => self.refuse(error)?,
            }
        }
        Ok(())
    }

    /// Whether one connection more is to be accepted. A worker with more than its share leaves it to the others; one
    /// that has waited takes it where it has one more than its share, and one that has waited long in any case. At the
    /// limit it is accepted where another one is idle, which can be closed for it.
    fn takes_more(&mut self) -> bool {
        let count = self.clients.len();
        let more = if self.declined == 0 { 0 } else { 1 };
        if !self.connections.has_few(count, more) && self.declined < PATIENCE {
            self.declined = self.declined.saturating_add(1);
            self.delay_accepts(SHORT);
            return false;
        }
        if count < self.connections.most() {
            self.declined = 0;
            return true;
        }
        let has_place = self.full_polls == 0 && self.longest_idle().is_some();
        if !has_place {
            self.delay_accepts(PAUSE);
        }
        has_place
    }

    /// Closes the connection that has been idle longest, at the limit of connections.
    fn make_place(&mut self) {
        if self.clients.len() >= self.connections.most() {
            self.connections.say_limit();
            self.close_longest_idle();
        }
    }

    /// Takes a connection that was accepted. Without memory for it, it is closed.
    fn welcome(&mut self, socket: TcpStream) -> io::Result<()> {
        let alloc = self.rt.alloc();
        socket.set_nonblocking(true)?;
        socket.set_nodelay(true)?;
        let log = if self.log {
            Some(RequestLog::new(self.rt))
        } else {
            None
        };
        let Ok(token) = self.clients.prepare() else {
            return Err(io::Error::from(ErrorKind::OutOfMemory));
        };
        self.poll.registry().register(
            &mut SourceFd(&socket.as_raw_fd()),
            Token(token),
            Interest::READABLE | Interest::WRITABLE,
        )?;
        let client = Box::new(alloc, Client::new(alloc, socket, log, self.now))?;
        let count = client.held();
        let deadline = client.deadline();
        let place = self.clients.insert(client);
        self.connections.add();
        self.note_kept(count, deadline);
        self.give_turn(place);
        Ok(())
    }

    /// Does what helps where an accept failed, and gives the error back where nothing does.
    fn refuse(&mut self, error: io::Error) -> io::Result<()> {
        self.connections.say_refusal(&error);
        self.refused = self.refused.saturating_add(1);
        match remedy_of(&error) {
            Remedy::AtOnce if self.refused <= TRIES => {}
            Remedy::CloseOne
                if self.refused % TURNS_OF_REFUSALS == 1 && self.close_longest_idle() => {}
            Remedy::Nothing => return Err(error),
            _ => self.delay_accepts(PAUSE),
        }
        Ok(())
    }

    /// Closes the connection that has been idle longest, if one is idle, and gives whether there was one.
    fn close_longest_idle(&mut self) -> bool {
        match self.longest_idle() {
            Some(place) => {
                self.close(place);
                true
            }
            None => false,
        }
    }

    /// The place of the connection that has been idle longest, if one is idle.
    fn longest_idle(&self) -> Option<usize> {
        self.clients
            .first_least(|client| client.idle_since().map(|since| since.as_nanos()))
    }

    /// Closes the connection for which most is held.
    fn close_largest(&mut self) {
        self.connections.say_memory();
        let mut largest = None;
        for place in 0..self.clients.end() {
            if let Some(client) = self.clients.get(place)
                && largest.is_none_or(|(_, most)| client.held() > most)
            {
                largest = Some((place, client.held()));
            }
        }
        if let Some((place, _)) = largest {
            self.close(place);
        }
    }

    /// Notes which connections are ready, and whether the listener is. Where no connection is to have a turn, it waits
    /// for one that is ready, or until one is to be given up.
    fn poll(&mut self) -> io::Result<()> {
        let limit = self.longest_wait();
        self.poll.poll(&mut self.events, limit)?;
        self.read_clock();
        self.next_poll = self.now.saturating_add(Duration::from_millis(ALONE));
        let events = &self.events;
        let count = events.iter().count();
        for event in events.iter() {
            if event.token() == LISTENER {
                self.may_accept = true;
            } else {
                note(&mut self.clients, &mut self.ready, event);
            }
        }
        self.full_polls = if count < EVENTS {
            0
        } else {
            self.full_polls.saturating_add(1)
        };
        let is_known = self.full_polls == 0 || self.full_polls > FULL_POLLS;
        // A wait that ends, or that a signal cut short, may tell of no connection that is ready: the next poll does.
        if is_known && limit == Some(Duration::ZERO) && self.now >= self.next_look {
            self.look();
        }
        Ok(())
    }

    /// Accepts no connection for so many milliseconds.
    fn delay_accepts(&mut self, milliseconds: u64) {
        self.next_accept = self.now.saturating_add(Duration::from_millis(milliseconds));
    }

    /// How long is waited at most.
    fn longest_wait(&self) -> Option<Duration> {
        let next_accept = if self.may_accept {
            self.next_accept
        } else {
            Duration::MAX
        };
        let next = self.next_look.min(next_accept);
        if !self.ready.is_empty() {
            Some(Duration::ZERO)
        } else if next == Duration::MAX {
            None
        } else {
            Some(next.saturating_sub(self.now))
        }
    }

    /// Gives up the connections whose time is over, and notes when the next one's is.
    fn look(&mut self) {
        self.next_look = Duration::MAX;
        for place in 0..self.clients.end() {
            if let Some(client) = self.clients.get(place) {
                let deadline = client.deadline();
                if deadline > self.now {
                    self.next_look = self.next_look.min(deadline);
                } else if !client.is_ready() {
                    self.close(place);
                }
            }
        }
    }
}

/// Notes what an event says of a connection, which is to have a turn then. Without memory to note that, it waits until
/// its time is over.
fn note<'a>(
    clients: &mut ConnectionTable<Box<Client<'a>>>,
    ready: &mut VecDeque<usize>,
    event: &Event,
) {
    let Token(place) = event.token();
    if let Some(client) = clients.get_mut(place) {
        client.wake(event);
        if client.get_ready() && ready.push_back(place).is_err() {
            client.miss_turn();
        }
    }
}
