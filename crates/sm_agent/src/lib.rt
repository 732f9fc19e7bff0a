//! A caching reader of secrets: what a request's path asks for, whom it asks, and the answers that it keeps for a
//! while.
#![tactic(auto)]

pub mod agent;
pub mod answer;
mod asking;
mod cut;
mod json;
mod key;
pub mod laws;
pub mod link;
mod members;
pub mod path;
pub mod question;
pub mod received;
pub mod reply;
pub mod script;
pub mod turns;
pub mod upstream;
mod value;
mod wire;

pub use agent::{Agent, CACHE_SIZE, Given, TTL};
pub use answer::{Answer, CachedAnswer};
pub use laws::{kept_was_asked, replies_are_given};
pub use link::LinkUpstream;
pub use path::{QueryRefused, query};
pub use question::Question;
pub use reply::{given_reply, refused_reply, request};
pub use script::ScriptUpstream;
pub use turns::turn;
pub use upstream::{Told, Upped, Upstream};
