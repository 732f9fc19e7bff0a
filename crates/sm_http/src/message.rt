//! The message at the front of a stream's bytes (RFC 9112, in the profile of this server).
ghost use Rattle.std.specs.Prelude.{◌≡◌, length};
ghost use Rattle.sm_http.specs.Heads.{field_limit};
ghost use Rattle.sm_http.specs.Fronts.{IsFront, IsWholeHead};

use crate::request::{HeadRead, first_value, head_length, is_closing, read_head};
use httparse::spans::{EMPTY_HEADER_SPAN, HeaderSpan, RequestSpans};
use sm_base::BadKind;

/// The greatest length of a head.
pub const HEAD_LIMIT: usize = 16_384;

/// How many fields a head may have.
pub const FIELD_LIMIT: usize = 64;

/// The greatest length of a body.
pub const BODY_LIMIT: u64 = 524_288;

/// What the server looks at in a message.
#[derive(Drop)]
pub struct MessageView<'a> {
    pub method: &'a [u8],
    pub path: &'a [u8],
    /// The value of the first X-Amz-Target field.
    pub target: Option<&'a [u8]>,
    /// Whether the stream ends after it.
    pub closing: bool,
    pub body: &'a [u8],
}

/// What stands at the front of a stream's bytes.
#[derive(Drop)]
pub enum Front<'a> {
    /// A whole message, which takes so many bytes.
    Whole(MessageView<'a>, usize),
    /// A fault in a message's place.
    Bad(BadKind),
    /// No whole message yet, and no fault.
    Partial,
}

/// Room for the places of a head's fields. Nothing is known of what it holds: it is made once, and used for any number
/// of messages.
pub type FieldRoom = [HeaderSpan; FIELD_LIMIT];

/// Room for the places of fields. It takes no memory.
pub fn field_room() -> FieldRoom
    ensures { length result ≡ field_limit }
{
    [EMPTY_HEADER_SPAN; FIELD_LIMIT]
}

/// What the bytes begin with. The room's slice is as long as a head has fields at most.
pub fn front_of<'a>(bytes: &'a [u8], room: &mut [HeaderSpan]) -> Front<'a>
    requires { length room.old ≡ field_limit }
    ensures { IsFront bytes.now result }
{
    match head_length(bytes, 0) {
        Some(end) => match read_head(bytes, end, room) {
            HeadRead::Whole(spans, size) => {
                front_with_body(bytes, &bytes[..end], spans, &room[..spans.headers], size)
            }
            HeadRead::Bad(kind) => Front::Bad(kind),
        },
        None if bytes.len() < HEAD_LIMIT => Front::Partial,
        None => Front::Bad(BadKind::HeadTooLong),
    }
}

/// What the bytes begin with, where such a head does and its body has this size.
fn front_with_body<'a>(
    bytes: &'a [u8],
    text: &'a [u8],
    spans: RequestSpans,
    headers: &[HeaderSpan],
    size: usize,
) -> Front<'a>
    requires { IsWholeHead bytes.now text.now spans headers.now size }
    ensures { IsFront bytes.now result }
{
    let used = text.len() + size;
    if bytes.len() < used {
        return Front::Partial;
    }
    let message = MessageView {
        method: spans.method.of(text),
        path: spans.path.of(text),
        target: first_value(text, headers, b"x-amz-target"),
        closing: is_closing(text, headers, spans.version),
        body: &bytes[text.len()..used],
    };
    Front::Whole(message, used)
}
