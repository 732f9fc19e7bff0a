//! A message that owns its parts, copied from the bytes in which it came.
ghost use Rattle.std.specs.Prelude.{◌≡◌, length, map, IfOk, All};
ghost use Rattle.std.specs.Rc.{rc_slice_items};
ghost use Rattle.httparse.specs.Spans.{header_bytes, IsHeaderWithin, IsWithin};
ghost use Rattle.sm_http.specs.Reading.{pair_of};
ghost use Rattle.sm_http.specs.Waiting.{IsCopy};

use crate::answer::{Field, Message};
use crate::excerpt::Excerpt;
use crate::request::is_closing;
use httparse::spans::{HeaderSpan, RequestSpans};
use sm_base::{Bytes, List, NoMemory};
use std::alloc::Global;
use std::rc::RcSlice;

/// Where the parts of a message are.
#[derive(Clone, Copy)]
pub struct Parts<'a> {
    /// The text of its head.
    pub text: &'a [u8],
    pub spans: RequestSpans,
    pub headers: &'a [HeaderSpan],
    pub body: &'a [u8],
}

/// The message of these parts, whose first byte has this number. Its head's parts lie in one copy of the head's text.
pub fn own(alloc: Global, parts: Parts, at: u64) -> Result<Message, NoMemory>
    requires method { IsWithin (length parts.text.now) parts.spans.method }
    requires path { IsWithin (length parts.text.now) parts.spans.path }
    requires headers { All (IsHeaderWithin (length parts.text.now)) parts.headers.now }
    ensures { IfOk result (IsCopy parts.entry at) }
{
    let spans = parts.spans;
    let block = RcSlice::from_slice(alloc, parts.text)?;
    let method = Excerpt::of(&block, spans.method)?;
    let path = Excerpt::of(&block, spans.path)?;
    let fields = own_fields(alloc, &block, parts.headers)?;
    let body = Bytes::from_slice(alloc, parts.body)?;
    Ok(Message {
        method,
        path,
        fields,
        closing: is_closing(parts.text, parts.headers, spans.version),
        body,
        at,
    })
}

/// The fields whose names and values the headers cover in a block.
fn own_fields(
    alloc: Global,
    block: &RcSlice<u8>,
    headers: &[HeaderSpan],
) -> Result<List<Field>, NoMemory>
    requires { All (IsHeaderWithin (length (rc_slice_items block.now))) headers.now }
    ensures { IfOk result (λ fields. map pair_of fields ≡ map (header_bytes (rc_slice_items block.now)) headers.now) }
{
    let mut fields = Vec::with_capacity(alloc, headers.len())?;
    for header in headers {
        fields.push(own_field(block, header)?)?;
    }
    Ok(List::new(fields))
}

/// The field whose name and value a header covers in a block.
fn own_field(block: &RcSlice<u8>, header: &HeaderSpan) -> Result<Field, NoMemory>
    requires { IsHeaderWithin (length (rc_slice_items block.now)) header.now }
    ensures { IfOk result (λ field. pair_of field ≡ header_bytes (rc_slice_items block.now) header.now) }
{
    let name = Excerpt::of(block, header.name)?;
    let value = Excerpt::of(block, header.value)?;
    Ok(Field { name, value })
}
