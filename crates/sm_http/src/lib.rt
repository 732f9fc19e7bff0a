//! HTTP messages and replies (RFC 9112): a reader of the messages of a source, what stands at the front of a stream's
//! bytes, and the writing of replies.
#![tactic(auto)]

mod ahead;
pub mod answer;
mod excerpt;
pub mod head;
pub mod laws;
pub mod message;
mod owned;
pub mod reader;
pub mod reply;
mod request;

pub use ahead::{Ahead, More};
pub use answer::{Field, Message, Next, Stop};
pub use excerpt::Excerpt;
pub use laws::{messages_go_on, one_reading, whole_messages};
pub use message::{
    BODY_LIMIT, FIELD_LIMIT, FieldRoom, Front, HEAD_LIMIT, MessageView, field_room, front_of,
};
pub use reader::{Reader, await_bytes};
pub use reply::{Piece, Sent, write, write_through};
