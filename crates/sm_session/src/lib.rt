//! Sessions: who asks for what by a message, its answer, and the messages of a stream.
#![tactic(auto)]

mod asking;
mod drawing;
pub mod ended;
mod fields;
pub mod heard;
mod hearing;
mod holding;
pub mod laws;
pub mod said;
mod saying;
mod sending;
mod serving;
mod streams;
mod taking;
pub mod trace;
mod turns;

pub use drawing::draw;
pub use ended::Ended;
pub use heard::Heard;
pub use hearing::read;
pub use said::Said;
pub use saying::{say_handled, say_refusal, say_reply};
pub use sending::send;
pub use serving::serve;
pub use sm_account::Handled;
pub use streams::{MESSAGE_LIMIT, finish, next_message};
pub use trace::{Served, ServedBy, Trace, TraceItem};
pub use turns::turn;
