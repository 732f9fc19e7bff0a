//! Persons and their credentials: who may ask, and who asks.
#![tactic(auto)]

pub mod caller;
pub mod known;
pub mod laws;
mod lines;
pub mod people;

pub use caller::CallerRefused;
pub use known::{Known, SECRET_LIMIT};
pub use people::{People, PeopleRefused};
