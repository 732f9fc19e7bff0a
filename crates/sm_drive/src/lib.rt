//! Whole runs of an account: requests, works of a rotator, verdicts, rotations that are due, and restarts, one after
//! the other over one disk, with an outcome a call.
#![tactic(auto)]

pub mod asked;
pub mod call;
pub mod driven;
pub mod driving;
mod due;
mod handling;
pub mod laws;
pub mod outcome;
mod report;
mod restart;
pub mod run;
mod running;
mod step;
mod work;

pub use asked::{all_may_be_made, may_be_made};
pub use call::Call;
pub use driven::Driven;
pub use driving::drive;
pub use outcome::Outcome;
