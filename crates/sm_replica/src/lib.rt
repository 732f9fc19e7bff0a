//! A replica of a primary's secrets: it takes the frames of a history, shows the secrets of its region, and is promoted
//! to an account of its own. What it holds is always what a first part of the history makes. And the frames that a
//! primary ships to it.
#![tactic(auto)]

mod answering;
pub mod laws;
pub mod replica;
pub mod shipping;
mod taking;
pub mod timely;

pub use laws::replica_is_a_prefix;
pub use replica::{PromoteRefused, Replica, Taken};
pub use shipping::{next_frame, ship};
pub use timely::note_timely;
