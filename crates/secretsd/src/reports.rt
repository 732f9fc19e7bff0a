//! What is said on standard error of faults, in a bounded number of lines.
use std::fmt::Display;
use std::sync::atomic::{AtomicU64, Ordering};
use std::time::Clock;

/// How many lines are said of one kind of fault in a minute.
const LINES: u64 = 10;

/// How many seconds a minute has.
const MINUTE: u64 = 60;

/// What a fault is of.
#[derive(Clone, Copy, PartialEq, Eq)]
pub enum Kind {
    Disk,
    Random,
    Rotation,
    Server,
}

/// How many lines were said in this minute, and how many were left out since the last that was said.
#[derive(Drop)]
struct Budget {
    minute: AtomicU64,
    said: AtomicU64,
    left_out: AtomicU64,
}

impl Budget {
    /// A budget of which nothing is spent.
    fn new() -> Budget {
        Budget {
            minute: AtomicU64::new(0),
            said: AtomicU64::new(0),
            left_out: AtomicU64::new(0),
        }
    }

    /// How many lines were left out since the last, where one more may be said in this minute. Else one more is left
    /// out.
    fn spend(&self, minute: u64) -> Option<u64> {
        if self.minute.swap(minute, Ordering::SeqCst) != minute {
            self.said.store(0, Ordering::SeqCst);
        }
        if self.said.fetch_add(1, Ordering::SeqCst) < LINES {
            Some(self.left_out.swap(0, Ordering::SeqCst))
        } else {
            self.left_out.fetch_add(1, Ordering::SeqCst);
            None
        }
    }
}

/// Says faults on standard error, at most ten of each kind a minute. The next line tells how many were left out.
#[derive(Drop)]
pub struct Reports<'a> {
    rt: &'a HostRuntime,
    disk: Budget,
    random: Budget,
    rotation: Budget,
    server: Budget,
}

impl<'a> Reports<'a> {
    /// Nothing was said yet.
    pub fn new(rt: &'a HostRuntime) -> Reports<'a> {
        Reports {
            rt,
            disk: Budget::new(),
            random: Budget::new(),
            rotation: Budget::new(),
            server: Budget::new(),
        }
    }

    /// The budget of a kind.
    fn budget(&self, kind: Kind) -> &Budget {
        match kind {
            Kind::Disk => &self.disk,
            Kind::Random => &self.random,
            Kind::Rotation => &self.rotation,
            Kind::Server => &self.server,
        }
    }

    /// Says a fault. What is said has no value, secret or credential in it.
    pub fn say<D: Display + Drop>(&self, kind: Kind, what: D) {
        let minute = match self.rt.monotonic() {
            Ok(time) => time.as_secs() / MINUTE,
            Err(_) => 0,
        };
        let _ = match self.budget(kind).spend(minute) {
            Some(0) => eprintln!(self.rt; "secretsd: {what}"),
            Some(count) => eprintln!(self.rt;
                "secretsd: {what} ({count} such lines before it were left out)"
            ),
            None => Ok(()),
        };
    }
}
