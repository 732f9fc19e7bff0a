//! What a connection waits for.
use std::time::Duration;

/// How many seconds a client may send nothing between two messages.
const IDLE: u64 = 75;

/// How many seconds a client may take to send a message, from its first byte on.
const MESSAGE: u64 = 30;

/// How many seconds a client may take to read a reply.
const REPLY: u64 = 30;

/// How many seconds a client is waited for once its last reply was sent.
const PARTING: u64 = 2;

/// What a connection waits for, as long as its worker has nothing to do for it.
#[derive(Clone, Copy, Debug, PartialEq, Eq)]
pub enum Stage {
    /// A message, of which nothing has come.
    Idle,
    /// The rest of a message.
    Message,
    /// That its client takes a reply.
    Reply,
    /// That its client closes it too.
    Parting,
}

impl Stage {
    /// How long is waited.
    pub fn limit(self) -> Duration {
        Duration::from_secs(match self {
            Stage::Idle => IDLE,
            Stage::Message => MESSAGE,
            Stage::Reply => REPLY,
            Stage::Parting => PARTING,
        })
    }
}
