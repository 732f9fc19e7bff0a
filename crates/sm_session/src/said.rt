//! What is said of a message.
use sm_model::Bytes;

/// A reply: its status and its body, or that there was no memory for it. Want of memory has a reply of its own, which
/// takes none.
#[derive(Drop)]
pub enum Said {
    /// The status is 200, 400, 413, 500 or 503.
    Reply(u16, Bytes),
    Memory,
}
