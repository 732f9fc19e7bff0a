//! The people text, line by line.
ghost use Rattle.std.specs.Prelude.{◌≡◌, ◌==◌, ℕ, IsTrue, Some, option_map, option_copied};
ghost use Rattle.std.specs.List.{list_all, list_any};
ghost use Rattle.sm_base.specs.PersonArn.{is_person_arn};
ghost use Rattle.sm_principal.specs.Lines.{is_key_byte, is_key, parted, kind_of, is_skipped, fits, has_key, known_of, known_if, known_with, with_kind, with_line};
ghost use Rattle.sm_principal.specs.Outcomes.{IsLine, IsAdded};

use crate::known::{Known, is_secret, kept};
use sm_base::limits::KEY_LIMIT;
use sm_base::person_arn::is_person_arn;
use sm_base::text::same_text;
use sm_base::{Copied, List, Text};
use sm_model::Person;
use std::alloc::Global;

/// What a line is.
#[derive(Drop)]
pub(crate) enum Line {
    Is(Known),
    /// It is not in the form of a line.
    Bad,
    Memory,
}

/// Why a line adds no person.
#[derive(Drop)]
pub(crate) enum LineRefused {
    Bad,
    Memory,
}

/// The text before the first such byte, and the text behind it.
#[tactic(auto, using(crate::proofs::LineLemmas::parted_here, crate::proofs::LineLemmas::parted_later, crate::proofs::LineLemmas::parted_none))]
pub(crate) fn parted(byte: u8, text: &[u8]) -> Option<(&[u8], &[u8])>
    ensures { option_map (λ p. (p.0.now, p.1.now)) result ≡ parted byte text.now }
{
    for (place, found) in text.iter().enumerate() {
        if *found == byte {
            return Some((text.split_at(place).0, text.split_at(place + 1).1));
        }
    }
    None
}

#[tactic(auto, unfolding(crate::specs::Lines::is_key_byte))]
fn is_key_byte(byte: u8) -> bool
    ensures { result ≡ is_key_byte byte }
{
    byte.is_ascii_alphanumeric() || byte == b'_'
}

fn are_key_bytes(text: &[u8]) -> bool
    ensures { result ≡ list_all is_key_byte text.now }
{
    text.iter().all(|byte| is_key_byte(*byte))
}

/// Whether the text is a key: 1 to 128 ASCII letters, digits or `_`.
#[tactic(auto, unfolding(crate::specs::Lines::is_key))]
pub(crate) fn is_key(text: &[u8]) -> bool
    ensures { result ≡ is_key text.now }
{
    1 <= text.len() && text.len() <= KEY_LIMIT && are_key_bytes(text)
}

#[tactic(auto, unfolding(crate::specs::Lines::kind_of))]
fn kind_of(text: &[u8]) -> Option<bool>
    ensures { result ≡ kind_of text.now }
{
    if same_text(text, b"full") {
        Some(true)
    } else if same_text(text, b"guest") {
        Some(false)
    } else {
        None
    }
}

/// A person of a key, a kind and an ARN that are in their forms, and a secret.
#[tactic(auto, using(crate::proofs::LineLemmas::key_is_text, crate::proofs::LineLemmas::arn_is_text, crate::proofs::BoundLemmas::arn_short))]
fn known_with(alloc: Global, key: &[u8], full: bool, arn: &[u8], secret: Option<&[u8]>) -> Line
    requires key { IsTrue (is_key key.now) }
    requires arn { IsTrue (is_person_arn arn.now) }
    ensures { IsLine result (Some (known_with key.now full arn.now (option_copied secret.entry))) }
{
    let Ok(key) = Text::from_utf8(alloc, key) else {
        return Line::Memory;
    };
    let Ok(arn) = Text::from_utf8(alloc, arn) else {
        return Line::Memory;
    };
    // A copy shares its texts with the copies that are made of it for each message.
    let Ok(person) = (Person { key, arn, full }).copy(alloc) else {
        return Line::Memory;
    };
    match kept(alloc, secret) {
        Ok(secret) => Line::Is(Known::with(person, secret)),
        Err(_) => Line::Memory,
    }
}

/// Whether a secret is in its form, where there is one.
fn fits(secret: Option<&[u8]>) -> bool
    ensures { result ≡ fits (option_copied secret.entry) }
{
    match secret {
        Some(secret) => is_secret(secret),
        None => true,
    }
}

fn known_if(
    alloc: Global,
    key: &[u8],
    kind: Option<bool>,
    arn: &[u8],
    secret: Option<&[u8]>,
) -> Line
    ensures { IsLine result (known_if key.now kind arn.now (option_copied secret.entry)) }
{
    let Some(full) = kind else {
        return Line::Bad;
    };
    if is_key(key) && is_person_arn(arn) && fits(secret) {
        known_with(alloc, key, full, arn, secret)
    } else {
        Line::Bad
    }
}

/// The person of a key and what stands behind it: a kind, an ARN and, if wanted, a secret.
fn with_kind(alloc: Global, key: &[u8], rest: &[u8]) -> Line
    ensures { IsLine result (with_kind key.now (parted 32 rest.now)) }
{
    match parted(b' ', rest) {
        Some((kind, rest)) => match parted(b' ', rest) {
            Some((arn, secret)) => known_if(alloc, key, kind_of(kind), arn, Some(secret)),
            None => known_if(alloc, key, kind_of(kind), rest, None),
        },
        None => Line::Bad,
    }
}

/// The person of a line.
fn known_of(alloc: Global, line: &[u8]) -> Line
    ensures { IsLine result (known_of line.now) }
{
    match parted(b' ', line) {
        Some((key, rest)) => with_kind(alloc, key, rest),
        None => Line::Bad,
    }
}

fn is_skipped(line: &[u8]) -> bool
    ensures { result ≡ is_skipped line.now }
{
    match line {
        [] => true,
        [first, ..] => *first == b'#',
    }
}

/// Whether some person has the key.
pub(crate) fn has_key(known: &[Known], key: &[u8]) -> bool
    ensures { result ≡ list_any (has_key key.now) known.now }
{
    known
        .iter()
        .any(|other| same_text(other.person().key.as_bytes(), key))
}

/// The persons known, with those of one line more.
pub(crate) fn with_line(
    alloc: Global,
    known: List<Known>,
    line: &[u8],
) -> Result<List<Known>, LineRefused>
    ensures { (number : ℕ) → IsAdded result number (with_line number known line.now) }
{
    if is_skipped(line) {
        return Ok(known);
    }
    let one = match known_of(alloc, line) {
        Line::Is(one) => one,
        Line::Bad => return Err(LineRefused::Bad),
        Line::Memory => return Err(LineRefused::Memory),
    };
    if has_key(known.as_slice(), one.person().key.as_bytes()) {
        return Err(LineRefused::Bad);
    }
    let mut known = known;
    match known.push(one) {
        Ok(_) => Ok(known),
        Err(_) => Err(LineRefused::Memory),
    }
}
