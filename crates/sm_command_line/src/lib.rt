//! The words of the command line of `secretsd`: what they ask for, and what is said of those that are refused.
//!
//! The words stand without the program's own name. `clap` reads them: it decides which words are refused and how a
//! value is written, and the contracts speak of its own account of both.
#![tactic(auto)]

mod arguments;
mod command;
mod reading;
mod refusal;
mod settings;

pub use reading::read_words;
pub use refusal::{Refusal, refusal_of};
pub use settings::{Mode, Settings, WordsRefused};
