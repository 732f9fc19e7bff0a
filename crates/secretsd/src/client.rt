//! One connection of a worker's. It is waited for only where the worker has no other one.
use crate::request_log::RequestLog;
use crate::stage::Stage;
use crate::unsent::{Unsent, is_later, write_now};
use mio::event::Event;
use sm_model::NoMemory;
use sm_visits::{Arrivals, Opened, VISIT_LIMIT};
use std::alloc::Global;
use std::io;
use std::io::{ErrorKind, Read};
use std::net::{Shutdown, TcpStream};
use std::time::Duration;

/// How often is read in a row before other connections have their turn.
const READS: u32 = 16;

/// For how many milliseconds a read waits for a client that has its worker for itself, and a write to it. The system
/// may wait a few more.
const WAIT: u64 = 1;

/// How many bytes of a client are dropped at most once its last reply was sent.
const DROPPED: u64 = 16 << 20;

/// What a connection's turn comes to.
#[derive(Clone, Copy, Debug, PartialEq, Eq)]
pub enum Turn {
    /// It has messages to be answered.
    Visit,
    /// It waits for its client.
    Wait,
    /// It is to have another turn when the others had theirs.
    Again,
    /// It is over.
    Close,
}

/// A connection: its socket, which waits for nothing, or for a moment where `waits` says so, what arrived and was not
/// answered, and the replies that the socket has not taken yet.
#[derive(Drop)]
pub struct Client<'a> {
    pub socket: TcpStream,
    arrivals: Arrivals,
    unsent: Unsent,
    stage: Stage,
    /// When the stage began, by the clock that never goes back.
    since: Duration,
    /// Whether reads and writes wait for a moment, and whether the system knows for how long.
    waits: bool,
    has_limits: bool,
    /// Whether the socket may have bytes, or the end. A poll says so again only once a read has found fewer than it
    /// would have taken.
    may_read: bool,
    /// Whether a poll has told that the client has sent all that it sends, or that the socket failed. It tells so once:
    /// all reads up to the end are made then.
    sees_end: bool,
    /// Whether the client has sent all that it sends.
    has_ended: bool,
    /// Whether nothing follows what is still to be sent.
    is_last: bool,
    /// Whether it is to have a turn.
    is_ready: bool,
    /// How many messages were opened in this visit.
    opened: u32,
    /// Whether no reply has begun since a message was opened.
    is_unanswered: bool,
    dropped: u64,
    log: Option<RequestLog<'a>>,
}

impl<'a> Client<'a> {
    /// A connection that was accepted now.
    pub fn new(
        alloc: Global,
        socket: TcpStream,
        log: Option<RequestLog<'a>>,
        now: Duration,
    ) -> Client<'a> {
        Client {
            socket,
            arrivals: Arrivals::new(alloc),
            unsent: Unsent::new(alloc),
            stage: Stage::Idle,
            since: now,
            waits: false,
            has_limits: false,
            may_read: true,
            sees_end: false,
            has_ended: false,
            is_last: false,
            is_ready: false,
            opened: 0,
            is_unanswered: false,
            dropped: 0,
            log,
        }
    }

    /// How many bytes are held for it: of unfinished messages and of replies that it has not taken.
    pub fn held(&self) -> usize {
        self.arrivals.len().saturating_add(self.unsent.held())
    }

    /// When it is given up, if nothing happens.
    pub fn deadline(&self) -> Duration {
        self.since.saturating_add(self.stage.limit())
    }

    /// Since when it has been idle, if it is.
    pub fn idle_since(&self) -> Option<Duration> {
        match self.stage {
            Stage::Idle if !self.is_ready => Some(self.since),
            _ => None,
        }
    }

    /// Notes what a poll says of its socket.
    pub fn wake(&mut self, event: &Event) {
        self.may_read |= event.is_readable() || event.is_error();
        self.sees_end |= event.is_read_closed() || event.is_error();
    }

    /// Has it have a turn, and gives whether it was to have none before.
    pub fn get_ready(&mut self) -> bool {
        let was_ready = self.is_ready;
        self.is_ready = true;
        !was_ready
    }

    /// Has it have no turn.
    pub fn miss_turn(&mut self) {
        self.is_ready = false;
    }

    /// Whether it is to have a turn.
    pub fn is_ready(&self) -> bool {
        self.is_ready
    }

    /// Does what can be done without waiting: sends what is unsent, and reads until a message is whole.
    pub fn turn(&mut self, buffer: &mut [u8], now: Duration) -> Turn {
        self.miss_turn();
        match self.go_on(buffer, now) {
            Ok(turn) => turn,
            Err(_) => Turn::Close,
        }
    }

    /// Waits a moment for the next message, where nothing else is to be done: a read that waits takes less time than a
    /// poll and a read.
    pub fn wait(&mut self, buffer: &mut [u8], now: Duration) -> Turn {
        if !self.only_waits() || self.set_waits(true).is_err() {
            return Turn::Wait;
        }
        let Ok(turn) = self.read_and_go_on(buffer, now) else {
            return Turn::Close;
        };
        if turn == Turn::Visit && !self.may_read {
            return turn;
        }
        match self.set_waits(false) {
            Ok(()) => turn,
            Err(_) => Turn::Close,
        }
    }

    /// Reads once, which may wait, and does what can be done then without waiting.
    fn read_and_go_on(&mut self, buffer: &mut [u8], now: Duration) -> io::Result<Turn> {
        self.may_read = true;
        self.read(buffer)?;
        if self.may_read {
            self.set_waits(false)?;
        }
        self.go_on(buffer, now)
    }

    /// Whether it only waits for the first byte of a message.
    fn only_waits(&self) -> bool {
        self.stage == Stage::Idle
            && self.arrivals.len() == 0
            && self.unsent.is_empty()
            && !(self.is_ready || self.is_last || self.may_read || self.sees_end || self.has_ended)
    }

    /// Has reads and writes wait for nothing.
    pub fn stop_waiting(&mut self) -> io::Result<()> {
        self.set_waits(false)
    }

    /// Has reads and writes wait for a moment, or for nothing.
    fn set_waits(&mut self, waits: bool) -> io::Result<()> {
        if self.waits == waits {
            return Ok(());
        }
        if !self.has_limits {
            let limit = Some(Duration::from_millis(WAIT));
            self.socket.set_read_timeout(limit)?;
            self.socket.set_write_timeout(limit)?;
            self.has_limits = true;
        }
        self.socket.set_nonblocking(!waits)?;
        self.waits = waits;
        Ok(())
    }

    /// Sends what is unsent, and then ends, or looks for messages.
    fn go_on(&mut self, buffer: &mut [u8], now: Duration) -> io::Result<Turn> {
        if !self.send_unsent(now)? {
            return Ok(Turn::Wait);
        }
        if self.is_last {
            return self.end(buffer, now);
        }
        self.begin_visit();
        for _ in 0..READS {
            match self.open() {
                Opened::Message => return Ok(Turn::Visit),
                Opened::Last if self.arrivals.is_open() => return Ok(Turn::Visit),
                Opened::Last => return Ok(Turn::Close),
                Opened::Nothing => {}
            }
            if !self.may_read {
                self.await_message(now);
                return Ok(Turn::Wait);
            }
            self.read(buffer)?;
        }
        self.await_message(now);
        Ok(Turn::Again)
    }

    /// Begins a visit.
    fn begin_visit(&mut self) {
        self.arrivals.begin_visit();
        self.opened = 0;
    }

    /// Opens what comes next, where nothing is open. Where nothing waits, and more may come, nothing is looked for.
    fn open(&mut self) -> Opened {
        let is_empty = self.arrivals.len() == 0 && !self.has_ended;
        if is_empty || self.arrivals.is_open() {
            return Opened::Nothing;
        }
        let opened = self.arrivals.open(self.has_ended);
        if opened == Opened::Message {
            self.opened = self.opened.saturating_add(1);
            self.is_unanswered = true;
        }
        opened
    }

    /// Whether a message that came would be opened in this visit.
    fn may_open(&self) -> bool {
        !self.arrivals.is_over() && self.opened < VISIT_LIMIT
    }

    /// Reads once. What came waits to be given. Fewer bytes than there is room for are all that the socket has, unless
    /// its client sends urgent data: for more, and for an end of which no poll has told, there is an event.
    fn read(&mut self, buffer: &mut [u8]) -> io::Result<()> {
        match self.socket.read(buffer) {
            Ok(0) => {
                self.has_ended = true;
                self.may_read = false;
            }
            Ok(count) => {
                let count = count.min(buffer.len());
                if count < buffer.len() && !self.sees_end {
                    self.may_read = false;
                }
                if let Err(NoMemory) = self.arrivals.push(&buffer[..count]) {
                    return Err(io::Error::from(ErrorKind::OutOfMemory));
                }
            }
            Err(error) if is_later(&error) => self.may_read = false,
            Err(error) => return Err(error),
        }
        Ok(())
    }

    /// Waits for the first byte of a message, or for its others.
    fn await_message(&mut self, now: Duration) {
        let stage = if self.arrivals.len() == 0 {
            Stage::Idle
        } else {
            Stage::Message
        };
        self.enter(stage, now);
    }

    /// Enters a stage, where it isn't in that.
    fn enter(&mut self, stage: Stage, now: Duration) {
        if self.stage != stage {
            self.stage = stage;
            self.since = now;
        }
    }

    /// Sends what is unsent as far as the socket takes it, and gives whether all was sent. Behind the last reply the
    /// end of the stream is sent.
    fn send_unsent(&mut self, now: Duration) -> io::Result<bool> {
        if self.unsent.is_empty() {
            return Ok(true);
        }
        if self.is_last {
            self.unsent.send(&mut self.socket, 1)?;
            if self.unsent.len() == 1 {
                self.unsent.send(&mut self.socket, 0)?;
                self.end_replies(now)?;
            }
        } else {
            self.unsent.send(&mut self.socket, 0)?;
        }
        if !self.unsent.is_empty() {
            self.enter(Stage::Reply, now);
        }
        Ok(self.unsent.is_empty())
    }

    /// Sends the end of the stream, and then waits for the client's. A client that asks without a rest would ask once
    /// more before it sees an end that is sent apart from the last reply, so that waits for the end (Nagle's rule).
    fn end_replies(&mut self, now: Duration) -> io::Result<()> {
        if self.unsent.is_empty() {
            self.socket.shutdown(Shutdown::Write)?;
            self.enter(Stage::Parting, now);
        }
        Ok(())
    }

    /// Ends the connection, once all replies were sent.
    fn end(&mut self, buffer: &mut [u8], now: Duration) -> io::Result<Turn> {
        if self.stage != Stage::Parting {
            self.end_replies(now)?;
        }
        self.part(buffer)
    }

    /// Drops what the client still sends, up to its end. A system that closes a socket with bytes unread tells the
    /// other side that the connection was cut, and a reply that was not read there is lost.
    fn part(&mut self, buffer: &mut [u8]) -> io::Result<Turn> {
        for _ in 0..READS {
            if self.has_ended || self.dropped > DROPPED {
                return Ok(Turn::Close);
            }
            match self.socket.read(buffer) {
                Ok(0) => return Ok(Turn::Close),
                Ok(count) => self.dropped = self.dropped.saturating_add(count as u64),
                Err(error) if is_later(&error) => return Ok(Turn::Wait),
                Err(error) => return Err(error),
            }
        }
        Ok(Turn::Again)
    }

    /// Gives the next bytes of the visit's messages, or 0 of them at its end. The visit ends behind a reply that was
    /// not taken whole, behind its last message, and where no further message is whole.
    pub fn give(&mut self, buf: &mut [u8]) -> io::Result<usize> {
        if !self.arrivals.is_open() && !self.opens(buf)? {
            return Ok(0);
        }
        let count = self.arrivals.give(buf).min(buf.len());
        if let Some(log) = &mut self.log {
            log.hear(&buf[..count]);
        }
        Ok(count)
    }

    /// Opens the next message of a visit, for which it reads once where none is whole.
    fn opens(&mut self, buf: &mut [u8]) -> io::Result<bool> {
        if !self.unsent.is_empty() {
            return Ok(false);
        }
        if self.open() == Opened::Nothing && self.may_read && self.may_open() {
            self.read(buf)?;
            self.open();
        }
        Ok(self.arrivals.is_open())
    }

    /// Takes a piece of a reply. What the socket doesn't take now is kept, and all of the last reply.
    pub fn reply(&mut self, piece: &[u8]) -> io::Result<()> {
        self.is_unanswered = false;
        let mut sent = 0;
        if self.unsent.is_empty() && !self.arrivals.is_over() {
            sent = write_now(&mut self.socket, piece)?;
        }
        if sent < piece.len() {
            self.unsent.push(&piece[sent..])?;
        }
        if let Some(log) = &mut self.log {
            log.reply(piece, piece.len());
        }
        Ok(())
    }

    /// Ends a visit, and gives whether there is more to do at once. The connection ends too behind the last visit, and
    /// behind one that left a message unread or without a reply, as where there is no memory: else the next reply would
    /// be taken for the one that is missing.
    pub fn end_visit(&mut self, now: Duration) -> bool {
        if self.arrivals.is_over() || self.arrivals.is_open() || self.is_unanswered {
            let _ = self.socket.set_nodelay(false);
            self.is_last = true;
        }
        self.stage = Stage::Idle;
        self.since = now;
        self.is_last
            || self.may_read
            || self.has_ended
            || self.arrivals.len() > 0
            || !self.unsent.is_empty()
    }
}
