//! What a replica writes.
use sm_session::Said;

/// What a replica writes after what it reads.
#[derive(Drop)]
pub enum Output {
    /// After a frame: its position.
    Position(u64),
    /// After a message: the reply.
    Reply(Said),
}
