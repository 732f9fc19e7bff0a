//! What the bytes of a journal's file say, without the disk.
ghost use Rattle.std.specs.Prelude.{◌≡◌, ◌≢◌, ◌<◌, ◌≤◌, ◌+◌, ◌∷◌, ◌++◌, ℕ, List, length, take, IfSome, IfNone, IfOk, Err};
ghost use Rattle.sm_journal.specs.Records.{header, entry_of, body_limit, front, place_behind, AreWithin, Loose, IsBroken, IsDamaged};
ghost use Rattle.sm_journal.specs.Places.{bodies_at, AreInside};
ghost use Rattle.sm_journal.specs.declared.parse.Damage.{Damage};
ghost use Rattle.sm_journal.specs.declared.parse.ParseRefused.TheVariants.{Memory};

use crate::format::Format;
use crate::lengths::HEADER_SIZE;
use crate::records::Place;
use std::alloc::{AllocFailed, Global};

/// The greatest length of a body.
pub const BODY_LIMIT: usize = 1_048_576;

/// What stands at the beginning of a file of the first format.
const FIRST_HEADER: [u8; 8] = *b"SMJRNL01";

/// What stands at the beginning of a file of the second format.
const SECOND_HEADER: [u8; 8] = *b"SMJRNL02";

/// Where a file is outside the grammar: the place of the record's gate, or 0 for the header, and the number of records
/// before it.
#[derive(Clone, Copy, Debug, PartialEq, Eq)]
pub struct Damage {
    pub at: u64,
    pub entry: u64,
}

/// A file's format, the places of its records' bodies, and that of the gate behind them.
#[derive(Drop)]
pub struct Parsed {
    pub format: Format,
    pub places: Vec<Place>,
    pub gate: u64,
}

/// Why a file is not parsed.
#[derive(Clone, Copy, Debug, PartialEq, Eq)]
pub enum ParseRefused {
    Damaged(Damage),
    Memory,
}

/// The format whose header stands at the beginning. It takes no memory.
pub fn format_at(bytes: &[u8]) -> Option<Format>
    requires { 8 ≤ length bytes.now }
    ensures found { IfSome result (λ format. take 8 bytes.now ≡ header format) }
    ensures none { IfNone result
        ((take 8 bytes.now ≢ header Format.First) × (take 8 bytes.now ≢ header Format.Second)) }
{
    if &bytes[..8] == FIRST_HEADER.as_slice() {
        Some(Format::First)
    } else if &bytes[..8] == SECOND_HEADER.as_slice() {
        Some(Format::Second)
    } else {
        None
    }
}

/// What stands behind a gate, if it is open.
fn behind_open(rest: &[u8]) -> Option<&[u8]>
    requires { 0 < length rest.now }
    ensures open { IfSome result (λ behind. rest.now ≡ 1 ∷ behind.now) }
    ensures closed { IfNone result ((gate : ℕ) × (behind : List ℕ) × (gate ≢ 1) ×
        (rest.now ≡ gate ∷ behind)) }
{
    match rest {
        [1, behind @ ..] => Some(behind),
        _ => None,
    }
}

/// The body behind an open gate, and what stands behind the body.
fn split_record(rest: &[u8]) -> Option<(&[u8], &[u8])>
    ensures split { IfSome result (λ parts. rest.now ≡ entry_of parts.0.now ++ parts.1.now) }
    ensures within { IfSome result (λ parts. length parts.0.now ≤ body_limit) }
    ensures gate { IfSome result (λ parts. 0 < length parts.1.now) }
    ensures broken { IfNone result (IsBroken rest.now) }
{
    if rest.len() < 4 {
        return None;
    }
    let (head, behind) = rest.split_at(4);
    let length = u32::from_be_bytes([head[0], head[1], head[2], head[3]]) as usize;
    if length > BODY_LIMIT || behind.len() <= length {
        return None;
    }
    Some(behind.split_at(length))
}

impl<T: Drop> From<AllocFailed<T>> for ParseRefused {
    ghost from_gives = { λ _ refused. refused ≡ Memory };

    fn from(_error: AllocFailed<T>) -> ParseRefused {
        ParseRefused::Memory
    }
}

/// Where a body stands in a file that has these bytes behind it.
fn place_before(bytes: &[u8], body: &[u8], behind: &[u8]) -> Place
    requires { length body.now + length behind.now ≤ length bytes.now }
    ensures start { result.start + (length body.now + length behind.now) ≡ length bytes.now }
    ensures length { result.length ≡ length body.now }
{
    Place {
        start: bytes.len() - behind.len() - body.len(),
        length: body.len(),
    }
}

/// The records of a file of more than nine bytes. It takes memory for their places alone.
pub fn parse(alloc: Global, bytes: &[u8]) -> Result<Parsed, ParseRefused>
    requires { 9 < length bytes.now }
    ensures inside { IfOk result (λ parsed. AreInside bytes.now parsed.places.items) }
    ensures list { IfOk result (λ parsed. AreWithin (bodies_at bytes.now parsed.places.items)
        × Loose (front parsed.format (bodies_at bytes.now parsed.places.items)) bytes.now) }
    ensures gate { IfOk result (λ parsed. parsed.gate ≡ place_behind (bodies_at bytes.now parsed.places.items)) }
    ensures within { IfOk result (λ parsed. parsed.gate + 1 ≤ length bytes.now) }
    ensures damaged { (damage : Damage) → result ≡ Err (ParseRefused.Damaged damage) →
        IsDamaged bytes.now damage.at damage.entry }
{
    match format_at(bytes) {
        Some(format) => records(alloc, format, bytes),
        None => Err(ParseRefused::Damaged(Damage { at: 0, entry: 0 })),
    }
}

/// The records behind the header of a file.
fn records(alloc: Global, format: Format, bytes: &[u8]) -> Result<Parsed, ParseRefused>
    requires long { 9 < length bytes.now }
    requires header { take 8 bytes.now ≡ header format }
    ensures inside { IfOk result (λ parsed. AreInside bytes.now parsed.places.items) }
    ensures list { IfOk result (λ parsed. AreWithin (bodies_at bytes.now parsed.places.items)
        × Loose (front parsed.format (bodies_at bytes.now parsed.places.items)) bytes.now) }
    ensures gate { IfOk result (λ parsed. parsed.gate ≡ place_behind (bodies_at bytes.now parsed.places.items)) }
    ensures within { IfOk result (λ parsed. parsed.gate + 1 ≤ length bytes.now) }
    ensures damaged { (damage : Damage) → result ≡ Err (ParseRefused.Damaged damage) →
        IsDamaged bytes.now damage.at damage.entry }
{
    let mut places = Vec::new(alloc);
    let mut rest = &bytes[HEADER_SIZE as usize..];
    while let Some(behind) = behind_open(rest) {
        let Some((body, next)) = split_record(behind) else {
            let at = (bytes.len() - rest.len()) as u64;
            let entry = places.len() as u64;
            return Err(ParseRefused::Damaged(Damage { at, entry }));
        };
        places.push(place_before(bytes, body, next))?;
        rest = next;
    }
    let gate = (bytes.len() - rest.len()) as u64;
    Ok(Parsed {
        format,
        places,
        gate,
    })
}
