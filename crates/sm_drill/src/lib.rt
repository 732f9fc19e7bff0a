//! A drill: the messages that mode drill makes of a number, and what it says of their replies.
#![tactic(auto)]

mod bodies;
pub mod drill;
mod message;
pub mod replies;
pub mod step;
mod texts;
mod words;

pub use drill::Drill;
pub use replies::{lines, shown_string};
pub use step::{MESSAGES, Step};
