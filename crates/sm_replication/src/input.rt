//! What a replica reads.
ghost use Rattle.std.specs.Prelude.{◌≡◌};

use crate::Frame;
use sm_base::Bytes;

/// The greatest length of a frame's list, with the lengths of its items, and of a frame's message, in bytes.
pub const LIST_LIMIT: u32 = 536_870_912;

/// The number as it is stated, so that the constant stays it.
pub fn length_of_a_list_is_as_stated()
    ensures { LIST_LIMIT ≡ 536870912 }
{}

/// What a replica reads: what a primary tells of its history, or a message.
#[derive(Drop)]
pub enum Input {
    Frame(Frame),
    /// One whole HTTP message.
    Message(Bytes),
}
