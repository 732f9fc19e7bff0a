//! Spellings of several parts, one after the other.
ghost use Rattle.std.specs.Prelude.{◌≡◌, ◌≤◌, length, IfOk, OnOk, IfErr, IsTrue};
ghost use Rattle.sm_base.specs.Spelling.{is_name_byte, is_token_byte, is_region_byte};
ghost use Rattle.sm_base.specs.Parts.{is_in, word_bytes, admits, least, reach, fault_from, has_parts, are_apart};
ghost use Rattle.sm_base.specs.Reading.{IsRefusal};

use crate::spelling::ReadRefused;
use crate::text::Text;
use std::alloc::Global;

/// The bytes that a run may have.
#[derive(Clone, Copy)]
pub(crate) enum Alphabet {
    /// ASCII letters, digits and `/_+=.@-`.
    NameBytes,
    /// From `!` to `~`.
    TokenBytes,
    /// Lower-case ASCII letters, digits and `-`.
    RegionBytes,
    Digits,
}

impl Alphabet {
    fn contains(self, byte: u8) -> bool
        ensures { result ≡ is_in self byte }
    {
        match self {
            Alphabet::NameBytes => is_name_byte(byte),
            Alphabet::TokenBytes => is_token_byte(byte),
            Alphabet::RegionBytes => is_region_byte(byte),
            Alphabet::Digits => byte.is_ascii_digit(),
        }
    }
}

#[tactic(auto, unfolding(crate::specs::Spelling::is_name_byte))]
pub(crate) fn is_name_byte(byte: u8) -> bool
    ensures { result ≡ is_name_byte byte }
{
    byte.is_ascii_alphanumeric() || b"/_+=.@-".contains(&byte)
}

#[tactic(auto, unfolding(crate::specs::Spelling::is_token_byte))]
pub(crate) fn is_token_byte(byte: u8) -> bool
    ensures { result ≡ is_token_byte byte }
{
    (b'!'..=b'~').contains(&byte)
}

#[tactic(auto, unfolding(crate::specs::Spelling::is_region_byte))]
fn is_region_byte(byte: u8) -> bool
    ensures { result ≡ is_region_byte byte }
{
    byte.is_ascii_lowercase() || byte.is_ascii_digit() || byte == b'-'
}

/// A text that stands in spellings as it is.
#[derive(Clone, Copy)]
pub(crate) enum Word {
    ArnStart,
    Colon,
    ResourceType,
}

impl Word {
    fn as_bytes(self) -> &'static [u8]
        ensures { result.now ≡ word_bytes self }
    {
        match self {
            Word::ArnStart => b"arn:aws:secretsmanager:",
            Word::Colon => b":",
            Word::ResourceType => b":secret:",
        }
    }
}

/// A part of a spelling.
#[derive(Clone, Copy)]
pub(crate) enum Part {
    Literal(Word),
    /// At least and at most so many bytes of an alphabet.
    Run(Alphabet, usize, usize),
}

pub(crate) const NAME: [Part; 1] = [Part::Run(Alphabet::NameBytes, 1, 512)];

pub(crate) const TOKEN: [Part; 1] = [Part::Run(Alphabet::TokenBytes, 32, 64)];

pub(crate) const ARN: [Part; 6] = [
    Part::Literal(Word::ArnStart),
    Part::Run(Alphabet::RegionBytes, 1, 32),
    Part::Literal(Word::Colon),
    Part::Run(Alphabet::Digits, 12, 12),
    Part::Literal(Word::ResourceType),
    Part::Run(Alphabet::NameBytes, 1, 519),
];

impl Part {
    /// Whether the part may have the byte at a place, counted from its own first byte.
    fn admits(&self, place: usize, byte: u8) -> bool
        ensures { result ≡ admits self.now place byte }
    {
        match self {
            Part::Literal(word) => {
                let bytes = word.as_bytes();
                place < bytes.len() && bytes[place] == byte
            }
            Part::Run(alphabet, _, greatest) => place < *greatest && alphabet.contains(byte),
        }
    }

    /// How many bytes it has at least.
    fn least(&self) -> usize
        ensures { result ≡ least self.now }
    {
        match self {
            Part::Literal(word) => word.as_bytes().len(),
            Part::Run(_, least, _) => *least,
        }
    }

    /// How many bytes at the front of a text the part takes.
    fn reach(&self, text: &[u8]) -> usize
        ensures value { result ≡ reach self.now text.now }
        ensures within { result ≤ length text.now }
    {
        for (place, byte) in text.iter().enumerate() {
            if !self.admits(place, *byte) {
                return place;
            }
        }
        text.len()
    }
}

/// The place at which a text leaves the parts, or none where it has them all and nothing more.
#[tactic(auto, using(crate::proofs::PartLemmas::fault_from_all, crate::proofs::PartLemmas::fault_from_more))]
pub(crate) fn first_fault(parts: &[Part], text: &[u8]) -> Option<usize>
    ensures { result ≡ fault_from 0 parts.now text.now }
{
    let mut at = 0;
    for part in parts {
        let reach = part.reach(&text[at..]);
        at += reach;
        if reach < part.least() {
            return Some(at);
        }
    }
    if at < text.len() { Some(at) } else { None }
}

#[tactic(auto, using(crate::proofs::PartLemmas::no_fault, crate::proofs::PartLemmas::fault_place))]
/// The text of bytes that have the parts, one after the other, and nothing more.
pub(crate) fn read_parts(alloc: Global, parts: &[Part], bytes: &[u8]) -> Result<Text, ReadRefused>
    requires { IsTrue (are_apart parts.now) }
    ensures value { IfOk result (λ text. text ≡ bytes.now) }
    ensures spelled { OnOk result (IsTrue (has_parts parts.now bytes.now)) }
    ensures refused { IfErr result (IsRefusal (has_parts parts.now) bytes.now) }
{
    match first_fault(parts, bytes) {
        Some(place) => Err(ReadRefused::Spelling(place)),
        None => Ok(Text::from_utf8(alloc, bytes)?),
    }
}
