//! What a rotation turn did.
ghost use Rattle.std.specs.Prelude.{◌≡◌};
ghost use Rattle.sm_pool.specs.Ends.{due_ends, report_ends};

use sm_account::{Reported, StartedDue};
use sm_model::{Arn, At};
use sm_rotator::{Rotator, Verdict, Work};

/// What a turn could not go on for.
#[derive(Clone, Copy, Debug, PartialEq, Eq)]
pub enum Trouble {
    /// The disk failed where the turn's entry was to be written.
    Disk,
    /// The random source failed.
    Words,
    Memory,
    /// The turn's entry would pass this limit.
    Limit(u64),
}

/// What became of a turn.
#[derive(Drop)]
pub enum Done {
    /// The rotator did this step of the secret with this ARN, or failed at it, and its answer was entered.
    Did(Arn, At),
    /// The due rotation of the secret with this ARN was started.
    Started(Arn),
    /// There is nothing to do.
    Idle,
    /// The rotator's answer came too late. This is the step that the secret's job is at.
    Stale(Option<At>),
    Trouble(Trouble),
}

/// How a report ends a turn.
pub(crate) fn done_reported<R: Rotator>(reported: Reported, verdict: Verdict<R>) -> Done
    ensures { result ≡ report_ends verdict.work reported }
{
    let Verdict { work, .. } = verdict;
    let Work { arn, at, .. } = work;
    match reported {
        Reported::Moved => Done::Did(arn, at),
        Reported::Stale(at) => Done::Stale(at),
        Reported::Limit(limit) => Done::Trouble(Trouble::Limit(limit)),
        Reported::DiskFault => Done::Trouble(Trouble::Disk),
        Reported::Memory => Done::Trouble(Trouble::Memory),
    }
}

/// How a start ends a turn.
pub(crate) fn done_started(started: StartedDue) -> Done
    ensures { result ≡ due_ends started }
{
    match started {
        StartedDue::Started(arn) => Done::Started(arn),
        StartedDue::None => Done::Idle,
        StartedDue::Limit(limit) => Done::Trouble(Trouble::Limit(limit)),
        StartedDue::DiskFault => Done::Trouble(Trouble::Disk),
        StartedDue::Memory => Done::Trouble(Trouble::Memory),
    }
}
