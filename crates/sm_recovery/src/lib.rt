//! What a disk holds that an account is opened over: a base and the entries behind it, which state they make, what
//! keeps that state, and its opening.
#![tactic(auto)]

mod lawful;
pub mod laws;
pub mod opened;
mod opening;
mod replacing;
pub mod replay_laws;
pub mod replay_state;

pub use opened::{Opened, Taken, base_under};
pub use opening::open;
pub use replay_state::{Refusal, ReplayState, Stopped};
pub use sm_store::{Damage, OpenRefused};
