//! What the connection workers of a server share: how many connections there are, and what was said of them.
use crate::welcome::Welcome;
use std::fs::File;
use std::io::Read;
use std::net::TcpListener;
use std::num::NonZeroUsize;
use std::sync::atomic::{AtomicBool, AtomicUsize, Ordering};
use std::{io, str};

/// How many open files are left to the journal, to rotators and to the system, beside one for each event loop.
const OTHER_FILES: usize = 16;

/// How many connections there are at most where the system tells no limit of open files.
const CONNECTIONS: usize = 1_024;

/// How many bytes of unfinished messages and of replies that were not taken are held at most.
const HELD: usize = 128 << 20;

/// How many bytes of the system's table of limits are read.
const TABLE: usize = 4_096;

/// The counts and words that connection workers share. There is no lock.
#[derive(Drop)]
pub struct Connections<'a> {
    rt: &'a HostRuntime,
    welcome: Option<&'a Welcome<'a>>,
    workers: NonZeroUsize,
    files: usize,
    connections: AtomicUsize,
    held: AtomicUsize,
    is_welcomed: AtomicBool,
    is_refusal_said: AtomicBool,
    is_limit_said: AtomicBool,
    is_memory_said: AtomicBool,
}

impl<'a> Connections<'a> {
    /// No connection yet, of so many workers.
    pub fn new(
        rt: &'a HostRuntime,
        welcome: Option<&'a Welcome<'a>>,
        workers: usize,
    ) -> Connections<'a> {
        Connections {
            rt,
            welcome,
            workers: NonZeroUsize::new(workers).unwrap_or(NonZeroUsize::MIN),
            files: file_limit(rt).unwrap_or(CONNECTIONS.saturating_add(OTHER_FILES)),
            connections: AtomicUsize::new(0),
            held: AtomicUsize::new(0),
            is_welcomed: AtomicBool::new(false),
            is_refusal_said: AtomicBool::new(false),
            is_limit_said: AtomicBool::new(false),
            is_memory_said: AtomicBool::new(false),
        }
    }

    /// How many connections a worker has at most.
    pub fn most(&self) -> usize {
        let others = OTHER_FILES.saturating_add(self.workers.get());
        let spare = others.min(self.files / 2);
        (self.files.saturating_sub(spare) / self.workers.get()).max(1)
    }

    /// Counts so many bytes more that are held for a connection.
    pub fn hold(&self, count: usize) {
        if count > 0 {
            self.held.fetch_add(count, Ordering::SeqCst);
        }
    }

    /// Counts so many bytes less.
    pub fn let_go(&self, count: usize) {
        if count > 0 {
            self.held.fetch_sub(count, Ordering::SeqCst);
        }
    }

    /// Whether too many bytes are held, and a worker that holds so many has more than its part of them.
    pub fn holds_too_much(&self, count: usize) -> bool {
        count > HELD / self.workers.get() && self.held.load(Ordering::SeqCst) > HELD
    }

    /// Whether a worker with so many connections has at most its share, and so many more.
    pub fn has_few(&self, count: usize, more: usize) -> bool {
        let all = self.connections.load(Ordering::SeqCst);
        count.saturating_mul(self.workers.get())
            <= all.saturating_add(more.saturating_mul(self.workers.get()))
    }

    /// Counts one connection more.
    pub fn add(&self) {
        self.connections.fetch_add(1, Ordering::SeqCst);
    }

    /// Counts one connection less.
    pub fn remove(&self) {
        self.connections.fetch_sub(1, Ordering::SeqCst);
    }

    /// Says that the server can be asked, where nobody has said so. Workers begin once the account is opened.
    pub fn say_welcome(&self, listener: &TcpListener) {
        if let Some(welcome) = self.welcome
            && !self.is_welcomed.swap(true, Ordering::SeqCst)
        {
            welcome.say(self.rt, listener);
        }
    }

    /// Says that no connection can be accepted, once until one is accepted again.
    pub fn say_refusal(&self, error: &io::Error) {
        if !self.is_refusal_said.swap(true, Ordering::SeqCst) {
            let _ = eprintln!(self.rt; "secretsd: a connection can't be accepted: {error}");
        }
    }

    /// Notes that a connection was accepted.
    pub fn note_accepted(&self) {
        if self.is_refusal_said.load(Ordering::SeqCst) {
            self.is_refusal_said.store(false, Ordering::SeqCst);
        }
    }

    /// Says, once, that idle connections are closed for new ones.
    pub fn say_limit(&self) {
        if !self.is_limit_said.swap(true, Ordering::SeqCst) {
            let most = self.most().saturating_mul(self.workers.get());
            let _ = eprintln!(self.rt;
                "secretsd: there are {most} connections, as many as open files allow: from now on the connection that \
                 has been idle longest is closed for a new one"
            );
        }
    }

    /// Says, once, that connections are closed for what is held for them.
    pub fn say_memory(&self) {
        if !self.is_memory_said.swap(true, Ordering::SeqCst) {
            let megabytes = HELD >> 20;
            let _ = eprintln!(self.rt;
                "secretsd: unfinished messages and replies that nobody takes have reached {megabytes} MiB: from now on \
                 the connection with most of them is closed"
            );
        }
    }
}

/// How many files the system lets the program open, where it tells.
fn file_limit(rt: &HostRuntime) -> Option<usize> {
    let mut table = [0; TABLE];
    let mut file = File::open(rt, "/proc/self/limits").ok()?;
    let count = file.read(&mut table).ok()?.min(TABLE);
    let text = str::from_utf8(&table[..count]).ok()?;
    let line = text
        .lines()
        .find(|line| line.starts_with("Max open files"))?;
    line.split_whitespace().nth(3)?.parse().ok()
}
