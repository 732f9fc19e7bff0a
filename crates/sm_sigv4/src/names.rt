//! The names of the fields that are signed (AWS General Reference, "Create a signed AWS API request").
ghost use Rattle.std.specs.Prelude.{◌≡◌, ◌==◌, ◌&&◌, nat_le, [], length, map, codes};
ghost use Rattle.std.specs.List.{list_all, list_any};
ghost use Rattle.sm_http.specs.Reading.{pair_of};
ghost use Rattle.sm_sigv4.specs.Names.{is_name_byte, is_field_name, is_before, is_next, are_next, is_among, are_signable, names_of};

use crate::fields::first_value;
use crate::texts::first_piece;
use sm_base::text::same_text;
use sm_http::Field;

/// Whether it is one of the other characters of a token than letters and digits (RFC 9110, section 5.6.2).
fn is_mark(byte: u8) -> bool
    ensures { result ≡ list_any (λ c. c == byte) (codes "!#$%&'*+-.^_`|~") }
{
    b"!#$%&'*+-.^_`|~".contains(&byte)
}

#[tactic(auto, unfolding(crate::specs::Names::is_name_byte, httparse::specs::Grammar::is_token_byte))]
fn is_name_byte(byte: u8) -> bool
    ensures { result ≡ is_name_byte byte }
{
    (byte.is_ascii_alphanumeric() || is_mark(byte)) && !byte.is_ascii_uppercase()
}

fn are_name_bytes(name: &[u8]) -> bool
    ensures { result ≡ list_all is_name_byte name.now }
{
    name.iter().all(|byte| is_name_byte(*byte))
}

/// Whether a field may have this name, in lower case.
#[tactic(auto, unfolding(crate::specs::Names::is_field_name))]
pub fn is_field_name(name: &[u8]) -> bool
    ensures { result ≡ is_field_name name.now }
{
    1 <= name.len() && are_name_bytes(name)
}

/// Whether a text stands before another in byte order.
#[tactic(auto, unfolding(crate::specs::Names::is_before))]
fn is_before(one: &[u8], other: &[u8]) -> bool
    ensures { result ≡ is_before one.now other.now }
{
    one.cmp(&other).is_lt()
}

/// Whether the name may be signed behind the one before it.
#[tactic(auto, unfolding(crate::specs::Names::is_next))]
fn is_next(fields: &[Field], before: &[u8], name: &[u8]) -> bool
    ensures { result ≡ is_next (map pair_of fields.now) before.now name.now }
{
    is_field_name(name) && first_value(fields, name).is_some() && is_before(before, name)
}

/// Whether each name of a text may be signed behind the one before it.
#[tactic(auto, using(crate::proofs::NameLemmas::next_passes, crate::proofs::NameLemmas::next_fails, crate::proofs::NameLemmas::last_name))]
fn are_next(fields: &[Field], names: &[u8]) -> bool
    ensures { result ≡ are_next (map pair_of fields.now) [] (names_of names.now) }
{
    let mut before: &[u8] = b"";
    let mut left = names;
    while let Some((name, rest)) = first_piece(b';', left) {
        if !is_next(fields, before, name) {
            return false;
        }
        before = name;
        left = rest;
    }
    is_next(fields, before, left)
}

/// Whether the name is one of a text's.
#[tactic(auto, using(crate::proofs::NameLemmas::found_here, crate::proofs::NameLemmas::found_later, crate::proofs::NameLemmas::found_last))]
fn is_among(names: &[u8], name: &[u8]) -> bool
    ensures { result ≡ is_among (names_of names.now) name.now }
{
    let mut left = names;
    while let Some((found, rest)) = first_piece(b';', left) {
        if same_text(found, name) {
            return true;
        }
        left = rest;
    }
    same_text(left, name)
}

/// Whether the fields of these names may be signed.
#[tactic(auto, unfolding(crate::specs::Names::are_signable))]
pub fn are_signable(fields: &[Field], names: &[u8]) -> bool
    ensures { result ≡ are_signable (map pair_of fields.now) (names_of names.now) }
{
    are_next(fields, names)
        && is_among(names, b"host")
        && is_among(names, b"x-amz-date")
        && is_among(names, b"x-amz-target")
        && !is_among(names, b"authorization")
}
