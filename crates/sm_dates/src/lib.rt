//! Dates: when a window of days ends, when a secret is rotated next, by days or by a schedule, and the day of a moment
//! as text.
#![tactic(auto)]

pub mod dates;

pub use dates::{next_rotation, show, window_end};
