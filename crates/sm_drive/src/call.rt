//! Calls of a run.
use sm_model::{Bytes, Moment, Person, Request};

/// What is done next.
#[derive(Drop)]
pub enum Call {
    /// The person asks this at a reading of the clock, and these random bytes were drawn for it: as many as the request
    /// needs. The person's key and ARN have at most 256 bytes each.
    Handle(Person, Moment, Bytes, Request),
    /// The first step of a rotation that is ready at a reading of the clock is claimed, the rotator is asked to do it,
    /// and its verdict is kept.
    Work(Moment),
    /// The verdict of this number, counted from 0 over all that were kept in the run, is reported at a reading of the
    /// clock. One may be reported as often as it is named.
    Report(usize, Moment),
    /// The first rotation that is due at a reading of the clock is started, for the token of these random bytes.
    Due(Moment, [u8; 16]),
    /// The account is closed, and opened over the same disk. The verdicts stay.
    Restart,
}
