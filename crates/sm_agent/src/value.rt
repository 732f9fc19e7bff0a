//! The values of a query.
ghost use Rattle.std.specs.Prelude.{◌≡◌, IfOk};
ghost use Rattle.sm_agent.specs.Values.{begins_with_digits, is_encoded, utf8_text, decoded};
ghost use Rattle.percent_encoding.specs.Percent.{percent_decode};

use percent_encoding::{DecodeError, percent_decode};
use sm_base::{NoMemory, Text};
use std::alloc::Global;
use std::borrow::CowStr;

/// Whether a text begins with two hexadecimal digits.
fn begins_with_digits(text: &[u8]) -> bool
    ensures { result ≡ begins_with_digits text.now }
{
    match text {
        [high, low, ..] => high.is_ascii_hexdigit() && low.is_ascii_hexdigit(),
        _ => false,
    }
}

/// Whether two hexadecimal digits stand behind each `%`.
#[tactic(auto, using(crate::proofs::ValueLemmas::encoded_here, crate::proofs::ValueLemmas::encoded_not, crate::proofs::ValueLemmas::encoded_whole))]
fn is_encoded(value: &[u8]) -> bool
    ensures { result ≡ is_encoded value.now }
{
    for (place, byte) in value.iter().enumerate() {
        if *byte == b'%' && !begins_with_digits(&value[place + 1..]) {
            return false;
        }
    }
    true
}

/// The text that a value's bytes are, each escape being one of them.
fn utf8_text(alloc: Global, value: &str) -> Result<Option<Text>, NoMemory>
    ensures { IfOk result (λ text. text ≡ utf8_text (percent_decode value.now)) }
{
    match percent_decode(value.as_bytes()).decode_utf8(alloc) {
        Ok(CowStr::Borrowed(text)) => Ok(Some(Text::from_str(alloc, text)?)),
        Ok(CowStr::Owned(text)) => Ok(Some(Text::new(text))),
        Err(DecodeError::Utf8(_)) => Ok(None),
        Err(DecodeError::OutOfMemory) => Err(NoMemory),
    }
}

/// The text that a value stands for.
pub(crate) fn decoded(alloc: Global, value: &str) -> Result<Option<Text>, NoMemory>
    ensures { IfOk result (λ text. text ≡ decoded value.now) }
{
    if is_encoded(value.as_bytes()) {
        utf8_text(alloc, value)
    } else {
        Ok(None)
    }
}
