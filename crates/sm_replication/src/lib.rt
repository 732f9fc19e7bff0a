//! What a primary tells of its history, in frames, and the frames that a replica reads and writes, as bytes: the
//! entries of a primary, its rows, and messages to the replica; positions and replies. Numbers are big end first: a
//! position has eight bytes, lengths and counts four.
//!
//! What is read is the byte 1, a position and a list of at most 100 entries; or 2, a position and the bodies of rows;
//! or 3 and one HTTP message. What is written is 1 and a position, or 2 and a reply. Each entry, body, message and
//! reply stands behind its length, each list behind its count.
#![tactic(auto)]

mod await_frame;
mod bodies;
pub mod decoding;
pub mod encoding;
pub mod extent;
pub mod frame;
pub mod input;
pub mod laws;
pub mod output;
mod parts;
pub mod reader;
mod room;

pub use decoding::{FrameRefused, decode};
pub use encoding::{EncodeRefused, encode};
pub use extent::Extent;
pub use frame::{FRAME_ENTRIES, Frame};
pub use input::{Input, LIST_LIMIT};
pub use laws::frames_of_bytes;
pub use output::{encode_position, encode_reply};
pub use reader::{FrameReader, NextFrame};
