//! Outcomes of the calls of a run.

/// What came of a call.
#[derive(Clone, Copy, Debug, PartialEq, Eq)]
pub enum Outcome {
    /// An entry was made, and stands at this place of the run's entries, counted from 0.
    Entered(u64),
    /// A reply that needs no entry.
    Quiet,
    /// A refusal, but by a limit.
    Refused,
    /// The verdict is on a step that is past, or on a secret or a version that is gone.
    Stale,
    /// A limit would be passed: of secrets, versions, labels, tags or regions by the request, or of entries or of the
    /// journal's bytes by its entry or by that of a verdict or of a start.
    Limit,
    /// The disk failed where the entry was to be written.
    DiskFault,
    /// The rotator was asked, and its verdict is kept.
    Asked,
    /// No step is ready, no verdict has this number, or no rotation is due.
    Nothing,
    /// Out of memory. At most a claim was made and the rotator was asked, whose answer is lost.
    Memory,
    /// The account was opened again.
    Reopened,
}
