//! A disk over a disk that gathers what is written to a file between two syncs.
#![tactic(auto)]

mod gathered;
mod one_reading;
mod past;
mod pending;
mod run;
mod settle;
mod waiting;

pub use gathered::Gathered;
pub use one_reading::OneReading;
