//! What the peer of a link did last.
use std::sync::atomic::{AtomicI32, AtomicU32, AtomicU64, Ordering};
use std::{fmt, io};

/// What a peer did last, as far as the step came.
#[derive(Clone, Copy, PartialEq, Eq)]
pub enum PeerOutcome {
    /// It was not asked: its address is no host and port.
    Nothing,
    /// Its name was not found.
    NotFound,
    /// No connection to it was made.
    NotReached,
    /// It took no question.
    NotTaken,
    /// It didn't answer, or not to the end of a line.
    NotSaid,
    /// It closed the connection before the end of a line.
    Closed,
    /// It said something.
    Said,
}

impl PeerOutcome {
    /// The number of an outcome.
    fn number(self) -> u64 {
        match self {
            PeerOutcome::Nothing => 0,
            PeerOutcome::NotFound => 1,
            PeerOutcome::NotReached => 2,
            PeerOutcome::NotTaken => 3,
            PeerOutcome::NotSaid => 4,
            PeerOutcome::Closed => 5,
            PeerOutcome::Said => 6,
        }
    }

    /// The outcome, as it ends a step that failed, by its number.
    fn text(number: u64) -> &'static str {
        match number {
            0 => "its address is no host and port",
            1 => "its name was not found",
            2 => "no connection to it was made",
            3 => "it took no question",
            4 => "it gave no answer",
            5 => "it closed the connection before the end of its answer",
            _ => "its answer is none that is understood",
        }
    }
}

/// What a peer did last, with the number of the system's error, and how many of its addresses are still to be tried.
#[derive(Drop)]
pub struct LastOutcome {
    outcome: AtomicU64,
    error: AtomicI32,
    addresses: AtomicU32,
}

impl LastOutcome {
    /// Nothing was done.
    pub fn none() -> LastOutcome {
        LastOutcome {
            outcome: AtomicU64::new(0),
            error: AtomicI32::new(0),
            addresses: AtomicU32::new(1),
        }
    }

    /// Begins a step.
    pub fn begin(&self) {
        self.note(PeerOutcome::Nothing);
        self.expect(1);
    }

    /// Says how many addresses there are to be tried.
    pub fn expect(&self, count: u32) {
        self.addresses.store(count.max(1), Ordering::SeqCst);
    }

    /// Among how many addresses the time is shared, with the one that is tried now.
    pub fn next_share(&self) -> u32 {
        let count = self.addresses.load(Ordering::SeqCst).max(1);
        self.expect(count.saturating_sub(1));
        count
    }

    /// Notes what a peer did.
    pub fn note(&self, outcome: PeerOutcome) {
        self.error.store(0, Ordering::SeqCst);
        self.outcome.store(outcome.number(), Ordering::SeqCst);
    }

    /// Notes what a peer did, and the system's error.
    pub fn note_error(&self, outcome: PeerOutcome, error: &io::Error) {
        self.error
            .store(error.raw_os_error().unwrap_or(0), Ordering::SeqCst);
        self.outcome.store(outcome.number(), Ordering::SeqCst);
    }
}

impl fmt::Display for LastOutcome {
    fn fmt<W: fmt::Write>(&self, f: &mut fmt::Formatter<W>) -> fmt::Result {
        let text = PeerOutcome::text(self.outcome.load(Ordering::SeqCst));
        match self.error.load(Ordering::SeqCst) {
            0 => f.write_str(text),
            code => {
                let error = io::Error::from_raw_os_error(code);
                write!(f, "{text}: {error}")
            }
        }
    }
}
