//! What is kept of a session.
use crate::ended::Ended;
use sm_account::Account;
use sm_disk::Disk;
use sm_lock::{Pass, Storied};
use sm_model::{Bytes, List, Moment};
use sm_rotator::Rotator;

/// What is kept of a message that was answered.
#[derive(Drop)]
pub struct TraceItem {
    /// How long the history is that the reply speaks of, without a mark of the message's own.
    pub position: u64,
    /// What the clock read for it, or 0 where it did not reach the account.
    pub moment: Moment,
    /// The random bytes that were drawn for it.
    pub drawn: Bytes,
    pub status: u16,
}

/// What is kept of a session: an item for each message that was answered.
#[derive(Drop)]
pub struct Trace {
    pub items: List<TraceItem>,
}

/// What a session leaves: the pass again, its trace, and how it ended.
#[derive(Drop)]
pub struct ServedBy<A: Storied> {
    pub pass: Pass<A>,
    pub trace: Trace,
    pub ended: Ended,
}

/// What a session at an account leaves.
pub type Served<D: Disk, R: Rotator> = ServedBy<Account<D, R>>;
