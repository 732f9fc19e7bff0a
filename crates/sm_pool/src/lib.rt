//! Rotation turns: the work of a rotator on an account, one step of a rotation at a time.
#![tactic(auto)]

pub mod alone;
pub mod asking;
mod behind;
pub mod done;
pub mod drawing;
pub mod holds;
pub mod rounds;
pub mod shared;

pub use alone::one_turn;
pub use done::{Done, Trouble};
pub use rounds::{TURN_LIMIT, turns};
pub use shared::{Turned, TurnedBy, rotation_turn};
