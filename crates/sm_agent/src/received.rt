//! The reply at the front of the bytes that a server sent (RFC 9112).
ghost use Rattle.std.specs.Prelude.{◌≡◌, ◌≤◌, length, map, All};
ghost use Rattle.httparse.specs.Spans.{IsHeaderWithin, header_bytes};
ghost use Rattle.sm_agent.specs.Upstreams.{is_status};
ghost use Rattle.sm_agent.specs.Received.{IsFoundHead, Receives, body_length, length_in};

use httparse::Status;
use httparse::spans::{EMPTY_HEADER_SPAN, HeaderSpan, ResponseSpans, parse_response};
use sm_http::head::{find_field, length_of};

/// The greatest length of a head.
pub const HEAD_LIMIT: usize = 16_384;

/// How many fields a head may have.
pub const FIELD_LIMIT: usize = 64;

/// The greatest length of a body.
pub const BODY_LIMIT: usize = 524_288;

/// What stands at the front of a server's bytes.
#[derive(Clone, Copy, Debug, PartialEq, Eq)]
pub enum Received {
    /// A whole reply: its status, and where its body begins and ends.
    Whole(u16, usize, usize),
    /// No whole reply yet.
    Partial,
    /// No reply, or one of another status, or one whose body has no length that is known before.
    Bad,
}

/// Whether a reply may have this status.
pub(crate) fn is_status(status: u16) -> bool
    ensures { result ≡ is_status status }
{
    matches!(status, 200 | 400 | 413 | 500 | 503)
}

/// The length of a reply's body: that of its one Content-Length, of 1 to 10 decimal digits, where it has no
/// Transfer-Encoding.
fn body_length(bytes: &[u8], headers: &[HeaderSpan]) -> Option<u64>
    requires { All (IsHeaderWithin (length bytes.now)) headers.now }
    ensures { result ≡ body_length (map (header_bytes bytes.now) headers.now) }
{
    match find_field(bytes, headers, b"transfer-encoding") {
        Some(_) => None,
        None => only_length(bytes, headers),
    }
}

/// The length that the one Content-Length gives.
fn only_length(bytes: &[u8], headers: &[HeaderSpan]) -> Option<u64>
    requires { All (IsHeaderWithin (length bytes.now)) headers.now }
    ensures { result ≡ length_in (map (header_bytes bytes.now) headers.now) }
{
    match find_field(bytes, headers, b"content-length") {
        Some((value, others)) => match find_field(bytes, others, b"content-length") {
            Some(_) => None,
            None => length_of(value),
        },
        None => None,
    }
}

/// What stands at the front, where a head does whose parts are these.
fn with_head(bytes: &[u8], spans: ResponseSpans, headers: &[HeaderSpan]) -> Received
    requires { IsFoundHead bytes.now spans headers.now }
    ensures { Receives bytes.now result }
{
    if HEAD_LIMIT < spans.len {
        return Received::Bad;
    }
    if !is_status(spans.code) {
        return Received::Bad;
    }
    match body_length(bytes, headers) {
        Some(size) if size <= BODY_LIMIT as u64 => {
            let end = spans.len + size as usize;
            if end <= bytes.len() {
                Received::Whole(spans.code, spans.len, end)
            } else {
                Received::Partial
            }
        }
        Some(_) => Received::Bad,
        None => Received::Bad,
    }
}

/// What stands at the front of a server's bytes.
pub fn reply_in(bytes: &[u8]) -> Received
    ensures { Receives bytes.now result }
{
    let mut room = [EMPTY_HEADER_SPAN; FIELD_LIMIT];
    match parse_response(bytes, &mut room) {
        Ok(Status::Complete(spans)) => with_head(bytes, spans, &room[..spans.headers]),
        Ok(Status::Partial) => {
            if bytes.len() < HEAD_LIMIT {
                Received::Partial
            } else {
                Received::Bad
            }
        }
        Err(_) => Received::Bad,
    }
}
