//! A counted lock over one value that stands for a list of entries. Who passes through it knows what the list
//! was at each time, and that nobody else added an entry under its seat.
#![tactic(auto)]

pub mod board;
mod build;
mod close;
pub mod gate;
mod lend;
mod notes;
pub mod pass;
mod plays;
mod reads;
mod rousing;
pub mod storied;
mod turns;
pub mod view;
mod waiting;

pub use gate::{BuildRefused, Gate};
pub use pass::{Held, Note, Pass};
pub use storied::Storied;
