//! The digest of the canonical text of a message, which goes into the hasher piece by piece.
ghost use Rattle.std.specs.Prelude.{◌≡◌, ℕ, List, ◌+◌, ◌<◌, ◌++◌, ◌==◌, ◌&&◌, length, take, drop, map, reverse, slice_index, IfSome, IfNone};
ghost use Rattle.sha2.specs.Sha256.{sha256};
ghost use Rattle.sha2.specs.Hashers.{Holds256};
ghost use Rattle.httparse.specs.Grammar.{is_ows, skip_ows, trim_ows};
ghost use Rattle.hex.specs.Hex.{encode_lower};
ghost use Rattle.sm_http.specs.Heads.{values_of};
ghost use Rattle.sm_http.specs.Reading.{content, pair_of};
ghost use Rattle.sm_sigv4.specs.Texts.{begins_with_space, single_spaced, trimmed};
ghost use Rattle.sm_sigv4.specs.Names.{names_of};
ghost use Rattle.sm_sigv4.specs.Canonical.{more_values, values_text, line, lines, canonical, Feeds};

use crate::digits::digits_of;
use crate::fields::next_value;
use crate::texts::first_piece;
use sha2::{Digest, Sha256};
use sm_http::{Field, Message};

fn is_blank(byte: u8) -> bool
    ensures { result ≡ is_ows byte }
{
    byte == b' ' || byte == b'\t'
}

/// The text without the spaces and tabs that it begins with.
fn front_trimmed(text: &[u8]) -> &[u8]
    ensures { result.now ≡ skip_ows text.now }
{
    let mut left = text;
    while let [first, rest @ ..] = left {
        if !is_blank(*first) {
            return left;
        }
        left = rest;
    }
    left
}

/// The text without the spaces and tabs at its end.
#[tactic(auto, using(crate::proofs::ValueLemmas::blank_end, crate::proofs::ValueLemmas::other_end))]
fn back_trimmed(text: &[u8]) -> &[u8]
    ensures { result.now ≡ reverse (skip_ows (reverse text.now)) }
{
    let mut left = text;
    while let [rest @ .., last] = left {
        if !is_blank(*last) {
            return left;
        }
        left = rest;
    }
    left
}

/// The text without the spaces and tabs around it.
#[tactic(auto, unfolding(httparse::specs::Grammar::trim_ows))]
fn trimmed(text: &[u8]) -> &[u8]
    ensures { result.now ≡ trim_ows text.now }
{
    back_trimmed(front_trimmed(text))
}

fn begins_with_space(text: &[u8]) -> bool
    ensures { result ≡ begins_with_space text.now }
{
    match text {
        [] => false,
        [first, ..] => *first == b' ',
    }
}

/// Whether a space with another behind it stands at a place.
fn is_doubled(text: &[u8], place: usize) -> bool
    requires { place < length text.now }
    ensures { result ≡ ((slice_index text.now place == 32) && begins_with_space (drop (place + 1) text.now)) }
{
    text[place] == b' ' && begins_with_space(text.split_at(place + 1).1)
}

/// Where the first space stands that has a space behind it.
#[tactic(auto, using(crate::proofs::ValueLemmas::space_left_out, crate::proofs::ValueLemmas::byte_stays, crate::proofs::ValueLemmas::no_spaces))]
fn double_space(text: &[u8]) -> Option<usize>
    ensures absent { IfNone result (single_spaced text.now ≡ text.now) }
    ensures first { IfSome result (λ place. single_spaced text.now
        ≡ take place text.now ++ single_spaced (drop (place + 1) text.now)) }
    ensures within { IfSome result (λ place. place < length text.now) }
{
    for place in 0..text.len() {
        if is_doubled(text, place) {
            return Some(place);
        }
    }
    None
}

/// Puts a text, in which runs of spaces become one.
#[tactic(auto, using(crate::proofs::FeedLemmas::fed_nothing, crate::proofs::FeedLemmas::fed_more, crate::proofs::FeedLemmas::fed_last))]
fn put_spaced(hasher: &mut Sha256, text: &[u8])
    ensures { Feeds hasher.old hasher.new (single_spaced text.now) }
{
    let mut left = text;
    while let Some(place) = double_space(left) {
        hasher.update(left.split_at(place).0);
        left = left.split_at(place + 1).1;
    }
    hasher.update(left);
}

/// Puts a value.
fn put_value(hasher: &mut Sha256, value: &[u8])
    ensures { Feeds hasher.old hasher.new (trimmed value.now) }
{
    put_spaced(hasher, trimmed(value));
}

/// Puts the values of a name, each behind a comma.
#[tactic(auto, using(crate::proofs::FeedLemmas::fed_nothing, crate::proofs::FeedLemmas::fed_more, crate::proofs::FeedLemmas::fed_whole))]
fn put_more_values(hasher: &mut Sha256, fields: &[Field], name: &[u8])
    ensures { Feeds hasher.old hasher.new (more_values (values_of name.now (map pair_of fields.now))) }
{
    let mut left = fields;
    while let Some((value, rest)) = next_value(left, name) {
        hasher.update(b",");
        put_value(hasher, value);
        left = rest;
    }
}

/// Puts the values of a name, with a comma between two.
fn put_values(hasher: &mut Sha256, fields: &[Field], name: &[u8])
    ensures { Feeds hasher.old hasher.new (values_text (values_of name.now (map pair_of fields.now))) }
{
    match next_value(fields, name) {
        Some((value, rest)) => {
            put_value(hasher, value);
            put_more_values(hasher, rest, name);
        }
        None => {}
    }
}

/// Puts the line of a field.
fn put_line(hasher: &mut Sha256, fields: &[Field], name: &[u8])
    ensures { Feeds hasher.old hasher.new (line (map pair_of fields.now) name.now) }
{
    hasher.update(name);
    hasher.update(b":");
    put_values(hasher, fields, name);
    hasher.update(b"\n");
}

/// Puts the lines of the fields of these names.
#[tactic(auto, using(crate::proofs::FeedLemmas::fed_nothing, crate::proofs::FeedLemmas::fed_more, crate::proofs::FeedLemmas::fed_last))]
fn put_lines(hasher: &mut Sha256, fields: &[Field], names: &[u8])
    ensures { Feeds hasher.old hasher.new (lines (map pair_of fields.now) (names_of names.now)) }
{
    let mut left = names;
    while let Some((name, rest)) = first_piece(b';', left) {
        put_line(hasher, fields, name);
        left = rest;
    }
    put_line(hasher, fields, left);
}

/// The digits of the digest of a body.
fn body_digits(body: &[u8]) -> [u8; 64]
    ensures { result ≡ encode_lower (sha256 body.now) }
{
    digits_of(&Sha256::digest(body))
}

/// The digest of the canonical text of a message, where the fields of these names are signed.
#[tactic(auto, unfolding(crate::specs::Canonical::canonical))]
pub fn canonical_digest(message: &Message, names: &[u8]) -> [u8; 32]
    ensures { result ≡ sha256 (canonical (content message.now) names.now) }
{
    let mut hasher = Sha256::new();
    hasher.update(message.method.as_slice());
    hasher.update(b"\n");
    hasher.update(message.path.as_slice());
    hasher.update(b"\n\n");
    put_lines(&mut hasher, message.fields.as_slice(), names);
    hasher.update(b"\n");
    hasher.update(names);
    hasher.update(b"\n");
    hasher.update(body_digits(message.body.as_slice()));
    hasher.finalize()
}
