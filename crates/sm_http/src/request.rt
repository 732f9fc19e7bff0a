//! The head of a request: where its parts are, and what its fields say (RFC 9112, in the profile of this server).
ghost use Rattle.std.specs.Prelude.{◌≡◌, ◌==◌, ◌||◌, ◌≤◌, length, take, map, All, IfSome, codes, option_copied};
ghost use Rattle.httparse.specs.Spans.{header_bytes, IsHeaderWithin};
ghost use Rattle.sm_http.specs.Heads.{field_limit, head_limit, head_length, Passed, values_of, length_of, first_of};
ghost use Rattle.sm_http.specs.Messages.{asks_to_close};
ghost use Rattle.sm_http.specs.Fronts.{HasHead, IsHeadRead, AreFieldsRead};

use crate::head;
use crate::message::{BODY_LIMIT, HEAD_LIMIT};
use httparse::Status;
use httparse::spans::{HeaderSpan, RequestSpans, parse_request};
use sm_base::BadKind;

/// What a head says of the message that it begins.
#[derive(Clone, Copy, Debug, PartialEq, Eq)]
pub enum HeadRead {
    /// Where its parts are, and how long the body is.
    Whole(RequestSpans, usize),
    /// A fault in the message's place.
    Bad(BadKind),
}

/// How long the head at the front is, if its end is within the limit. It is looked for from behind so many bytes, at
/// none of which the empty line begins.
pub fn head_length(bytes: &[u8], passed: usize) -> Option<usize>
    requires { Passed passed (take head_limit bytes.now) }
    ensures value { result ≡ head_length bytes.now }
    ensures within { IfSome result (λ n. n ≤ length bytes.now) }
{
    head::blank_line(&bytes[..bytes.len().min(HEAD_LIMIT)], passed)
}

/// What the head at the front says, whose text is so long. The places of its fields are written to the room.
pub fn read_head(bytes: &[u8], end: usize, room: &mut [HeaderSpan]) -> HeadRead
    requires room { length room.old ≡ field_limit }
    requires ends { head_length bytes.now ≡ Some end }
    requires within { end ≤ length bytes.now }
    ensures { IsHeadRead bytes.now (take end bytes.now) room.new result }
{
    let text = &bytes[..end];
    match parse_request(text, room) {
        Ok(Status::Complete(spans)) => {
            if spans.len == end {
                read_fields(bytes, text, spans, &room[..spans.headers])
            } else {
                HeadRead::Bad(BadKind::Head)
            }
        }
        Ok(Status::Partial) => HeadRead::Bad(BadKind::Head),
        Err(_) => HeadRead::Bad(BadKind::Head),
    }
}

/// What the head at the front says, where these are its parts.
fn read_fields(bytes: &[u8], text: &[u8], spans: RequestSpans, headers: &[HeaderSpan]) -> HeadRead
    requires { HasHead bytes.now text.now spans headers.now }
    ensures { AreFieldsRead bytes.now text.now spans headers.now result }
{
    if head::find_field(text, headers, b"transfer-encoding").is_some() {
        return HeadRead::Bad(BadKind::Chunked);
    }
    match body_length(text, headers) {
        Some(size) => {
            if BODY_LIMIT < size {
                HeadRead::Bad(BadKind::BodyTooLong)
            } else {
                HeadRead::Whole(spans, size as usize)
            }
        }
        None => HeadRead::Bad(BadKind::Length),
    }
}

/// The value of the first field of a name.
pub fn first_value<'a>(text: &'a [u8], headers: &[HeaderSpan], name: &[u8]) -> Option<&'a [u8]>
    requires { All (IsHeaderWithin (length text.now)) headers.now }
    ensures { option_copied result ≡ first_of (values_of name.now (map (header_bytes text.now) headers.now)) }
{
    match head::find_field(text, headers, name) {
        Some((value, _)) => Some(value),
        None => None,
    }
}

/// Whether the stream ends after a message of this version and these fields.
pub fn is_closing(text: &[u8], headers: &[HeaderSpan], minor_version: u8) -> bool
    requires { All (IsHeaderWithin (length text.now)) headers.now }
    ensures { result ≡ ((minor_version == 0)
        || asks_to_close (first_of (values_of (codes "connection") (map (header_bytes text.now) headers.now)))) }
{
    minor_version == 0 || asks_to_close(first_value(text, headers, b"connection"))
}

/// How long the body is by the fields, where Content-Length is in its spelling.
fn body_length(text: &[u8], headers: &[HeaderSpan]) -> Option<u64>
    requires { All (IsHeaderWithin (length text.now)) headers.now }
    ensures { result ≡ length_of (values_of (codes "content-length") (map (header_bytes text.now) headers.now)) }
{
    let Some((value, others)) = head::find_field(text, headers, b"content-length") else {
        return Some(0);
    };
    if head::find_field(text, others, b"content-length").is_some() {
        return None;
    }
    head::length_of(value)
}

/// Whether a Connection field asks for the end of the stream.
fn asks_to_close(value: Option<&[u8]>) -> bool
    ensures { result ≡ asks_to_close (option_copied value.entry) }
{
    match value {
        Some(value) => head::is_same_name(value, b"close"),
        None => false,
    }
}
