//! The head of an HTTP message (RFC 9112): where it ends, and its fields.
ghost use Rattle.std.specs.Prelude.{◌≡◌, ◌≤◌, ◌∷◌, [], length, map, All, IfSome, IfNone, nat_eq, if◌then◌else◌};
ghost use Rattle.std.specs.Char.{is_ascii_digit};
ghost use Rattle.std.specs.List.{list_all, starts_with};
ghost use Rattle.std.specs.Str.Parse.{digits_value};
ghost use Rattle.std.specs.Str.{str_eq_ignore_ascii_case};
ghost use Rattle.httparse.specs.Spans.{header_bytes, IsHeaderWithin};
ghost use Rattle.sm_http.specs.Heads.{blank_line, Passed, line_ends, values_of, is_length};

use httparse::spans::HeaderSpan;
use memchr::memchr_iter;

/// Whether the bytes begin with CR LF CR LF.
fn is_blank_line(bytes: &[u8]) -> bool
    ensures { result ≡ starts_with nat_eq bytes.now line_ends }
{
    bytes.starts_with(b"\r\n\r\n")
}

/// How many bytes there are up to and including the first CR LF CR LF. It is looked for only where a CR stands.
#[tactic(auto, using(crate::proofs::HeadLemmas::line_here, crate::proofs::HeadLemmas::line_nowhere))]
fn first_blank_line(bytes: &[u8]) -> Option<usize>
    ensures value { result ≡ blank_line bytes.now }
    ensures within { IfSome result (λ n. n ≤ length bytes.now) }
{
    for place in memchr_iter(b'\r', bytes) {
        if is_blank_line(&bytes[place..]) {
            return Some(place + 4);
        }
    }
    None
}

/// How many bytes there are up to and including the first CR LF CR LF, which begins at none of so many places in front.
pub fn blank_line(bytes: &[u8], passed: usize) -> Option<usize>
    requires { Passed passed bytes.now }
    ensures value { result ≡ blank_line bytes.now }
    ensures within { IfSome result (λ n. n ≤ length bytes.now) }
{
    match first_blank_line(bytes.get(passed..)?) {
        Some(count) => Some(passed + count),
        None => None,
    }
}

/// Whether two names are the same, whose case does not count.
pub fn is_same_name(name: &[u8], other: &[u8]) -> bool
    ensures { result ≡ str_eq_ignore_ascii_case name.now other.now }
{
    name.eq_ignore_ascii_case(other)
}

/// The first value of a field, whose name's case does not count, and the fields after it.
#[tactic(auto, using(crate::proofs::HeadLemmas::values_at))]
pub fn find_field<'a, 'h>(
    bytes: &'a [u8],
    headers: &'h [HeaderSpan],
    name: &[u8],
) -> Option<(&'a [u8], &'h [HeaderSpan])>
    requires { All (IsHeaderWithin (length bytes.now)) headers.now }
    ensures absent { IfNone result (values_of name.now (map (header_bytes bytes.now) headers.now) ≡ []) }
    ensures first { IfSome result (λ found. values_of name.now (map (header_bytes bytes.now) headers.now)
        ≡ found.0.now ∷ values_of name.now (map (header_bytes bytes.now) found.1.now)) }
    ensures within { IfSome result (λ found. All (IsHeaderWithin (length bytes.now)) found.1.now) }
{
    for (index, header) in headers.iter().enumerate() {
        if is_same_name(header.name.of(bytes), name) {
            return Some((header.value.of(bytes), &headers[index + 1..]));
        }
    }
    None
}

/// The number that at most ten decimal digits write, and nothing where another byte is among them.
#[tactic(auto, using(crate::proofs::HeadLemmas::one_more_digit, crate::proofs::HeadLemmas::all_are_digits, crate::proofs::HeadLemmas::one_is_no_digit))]
fn decimal(text: &[u8]) -> Option<u64>
    requires { length text.now ≤ 10 }
    ensures { result ≡ (if list_all is_ascii_digit text.now then Some (digits_value 10 text.now) else None) }
{
    let mut value = 0u64;
    for byte in text {
        if !byte.is_ascii_digit() {
            return None;
        }
        value = value * 10 + u64::from(*byte - b'0');
    }
    Some(value)
}

/// The length that a Content-Length field gives, where it is spelled by 1 to 10 decimal digits.
pub fn length_of(text: &[u8]) -> Option<u64>
    ensures { result ≡ (if is_length text.now then Some (digits_value 10 text.now) else None) }
{
    if text.is_empty() || 10 < text.len() {
        return None;
    }
    decimal(text)
}
