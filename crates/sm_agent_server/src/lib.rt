//! A stream of requests to a caching reader: each message is answered before the next one is looked at.
#![tactic(auto)]

mod answering;
pub mod laws;

pub use answering::answer_stream;
pub use laws::streams_are_one_run;
