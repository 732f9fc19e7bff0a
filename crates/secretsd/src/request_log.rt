//! A line for each request of a connection.
ghost use Rattle.std.specs.Prelude.{◌≤◌, IfSome, length};

use crate::request_line::{Answered, say_answered};
use std::time::{Clock, Duration};

/// What a reply begins with.
const REPLY_START: &[u8] = b"HTTP/1.1 ";

/// What ends the head of a reply.
const HEAD_END: &[u8] = b"\r\n\r\n";

/// What stands before the length of a reply's body, which ends its head.
const LENGTH: &[u8] = b"\r\nContent-Length: ";

/// Says each request of a connection when its reply begins, and how many microseconds it took since it was read, or
/// since the reply before it began.
///
/// What a client sends is kept until it is answered. Where there is no memory for that, the lines of the connection
/// tell nothing of its requests from then on.
#[derive(Drop)]
pub struct RequestLog<'a> {
    rt: &'a HostRuntime,
    heard: Vec<u8>,
    is_whole: bool,
    since: Duration,
    left: u64,
}

impl<'a> RequestLog<'a> {
    /// The log of a connection on which nothing was said.
    pub fn new(rt: &'a HostRuntime) -> RequestLog<'a> {
        RequestLog {
            rt,
            heard: Vec::new(rt.alloc()),
            is_whole: true,
            since: Duration::ZERO,
            left: 0,
        }
    }

    /// The time by the clock that never goes back.
    fn time(&self) -> Duration {
        match self.rt.monotonic() {
            Ok(time) => time,
            Err(_) => Duration::ZERO,
        }
    }

    /// Notes what a client sent.
    pub fn hear(&mut self, bytes: &[u8]) {
        if self.is_whole && self.heard.extend_from_slice(bytes).is_err() {
            self.forget();
        }
        self.since = self.time();
    }

    /// Notes that so many bytes of a piece of a reply were taken, and says the request where the reply begins so.
    pub fn reply(&mut self, piece: &[u8], count: usize) {
        if self.left == 0 && piece.starts_with(REPLY_START) {
            self.left = length_of_reply(piece);
            self.say(piece);
        }
        self.left = self.left.saturating_sub(count as u64);
    }

    /// Says the request at the front, and lets it go.
    fn say(&mut self, reply: &[u8]) {
        let now = self.time();
        let answered = Answered {
            reply,
            spent: now.saturating_sub(self.since),
        };
        let size = say_answered(self.rt, self.heard.as_slice(), &answered);
        self.since = now;
        self.skip(size);
    }

    /// Lets go of so many bytes of the front.
    fn skip(&mut self, size: usize) {
        if size >= self.heard.len() {
            self.heard = Vec::new(self.rt.alloc());
            return;
        }
        match Vec::from_slice(self.rt.alloc(), self.heard.as_slice().split_at(size).1) {
            Ok(rest) => self.heard = rest,
            Err(_) => self.forget(),
        }
    }

    /// Keeps nothing any more.
    fn forget(&mut self) {
        self.is_whole = false;
        self.heard = Vec::new(self.rt.alloc());
    }
}

/// How many bytes a reply has that begins so.
fn length_of_reply(piece: &[u8]) -> u64 {
    match place_of(piece, HEAD_END) {
        Some(end) => {
            let (head, _) = piece.split_at(end);
            let body = match place_of(head, LENGTH) {
                Some(place) => number_of(head.split_at(place).1),
                None => 0,
            };
            body.saturating_add(end as u64)
                .saturating_add(HEAD_END.len() as u64)
        }
        None => 0,
    }
}

/// The first place at which a text stands.
fn place_of(bytes: &[u8], text: &[u8]) -> Option<usize>
    ensures { IfSome result (λ place. place ≤ length bytes.now) }
{
    for place in 0..bytes.len() {
        if bytes.split_at(place).1.starts_with(text) {
            return Some(place);
        }
    }
    None
}

/// The number that the digits of a text spell, one behind the other.
fn number_of(text: &[u8]) -> u64 {
    let mut number: u64 = 0;
    for byte in text {
        if byte.is_ascii_digit() {
            number = number
                .saturating_mul(10)
                .saturating_add(byte.saturating_sub(b'0') as u64);
        }
    }
    number
}
