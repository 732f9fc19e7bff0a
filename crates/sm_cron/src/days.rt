//! The days that a schedule names.

/// A set of days, and whether the last day of each month is meant.
#[derive(Clone, Copy)]
pub(crate) struct Days {
    pub(crate) set: u32,
    pub(crate) last: bool,
}
