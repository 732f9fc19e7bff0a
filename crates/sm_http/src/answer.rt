//! What a reader of messages answers.
ghost use Rattle.std.specs.Prelude.{◌≡◌};
ghost use Rattle.sm_http.specs.Reading.{stopped};

use crate::excerpt::Excerpt;
use sm_base::{BadKind, Bytes, List};

/// A field of a head: its name, and its value without the white space around it.
#[derive(Drop)]
pub struct Field {
    pub name: Excerpt,
    pub value: Excerpt,
}

/// A whole message.
#[derive(Drop)]
pub struct Message {
    pub method: Excerpt,
    pub path: Excerpt,
    pub fields: List<Field>,
    /// Whether the stream ends after it.
    pub closing: bool,
    pub body: Bytes,
    /// The number of its first byte in the stream, counted from 0.
    pub at: u64,
}

/// Why a reader gives no more messages.
#[derive(Clone, Copy, Debug, PartialEq, Eq)]
pub enum Stop {
    Bad(BadKind, u64),
    End,
    Cut(u64),
    ReadFault,
    Memory,
}

/// What a reader answers.
#[derive(Drop)]
pub enum Next {
    Message(Message),
    /// A fault in the place of the message whose first byte has this number.
    Bad(BadKind, u64),
    /// The stream ended after a whole message, or before the first.
    End,
    /// The stream ended with so many bytes after the last whole message.
    Cut(u64),
    /// The source failed.
    ReadFault,
    Memory,
}

/// The answer of a reader that stopped.
pub fn stopped(stop: Stop) -> Next
    ensures { result ≡ stopped stop }
{
    match stop {
        Stop::Bad(kind, at) => Next::Bad(kind, at),
        Stop::End => Next::End,
        Stop::Cut(count) => Next::Cut(count),
        Stop::ReadFault => Next::ReadFault,
        Stop::Memory => Next::Memory,
    }
}
