//! Texts of so many characters of UTF-8, byte by byte (The Unicode Standard, table 3-7).
ghost use Rattle.std.specs.Prelude.{◌≡◌, IsTrue, IfOk, OnOk, IfErr};
ghost use Rattle.sm_base.specs.Spelling.{is_label};
ghost use Rattle.sm_base.specs.Reading.{IsRefusal};
ghost use Rattle.sm_base.specs.Characters.{first_byte, next_byte, is_between, progress_after, is_whole, fault_after, no_progress};

use crate::spelling::ReadRefused;
use crate::text::Text;
use std::alloc::Global;

/// The most characters that a label has.
pub(crate) const MOST_CHARACTERS: usize = 256;

/// What may come next in UTF-8.
#[derive(Clone, Copy)]
pub(crate) enum Awaited {
    Character,
    /// So many more bytes of a character.
    One,
    Two,
    Three,
    /// The second byte after these first ones, of which some would spell a shorter character, a surrogate or none.
    AfterE0,
    AfterEd,
    AfterF0,
    AfterF4,
}

/// How far a text has come.
#[derive(Clone, Copy)]
pub(crate) struct Progress {
    pub awaited: Awaited,
    /// How many characters it has begun.
    pub characters: usize,
}

/// What comes after the first byte of a character.
fn after_first(byte: u8) -> Option<Awaited>
    ensures { result ≡ first_byte byte }
{
    match byte {
        0..=0x7F => Some(Awaited::Character),
        0xC2..=0xDF => Some(Awaited::One),
        0xE0 => Some(Awaited::AfterE0),
        0xED => Some(Awaited::AfterEd),
        0xE1..=0xEF => Some(Awaited::Two),
        0xF0 => Some(Awaited::AfterF0),
        0xF4 => Some(Awaited::AfterF4),
        0xF1..=0xF3 => Some(Awaited::Three),
        _ => None,
    }
}

impl Awaited {
    /// Whether a new character may come.
    fn is_between(self) -> bool
        ensures { result ≡ is_between self }
    {
        matches!(self, Awaited::Character)
    }

    /// What comes after a byte.
    fn after(self, byte: u8) -> Option<Awaited>
        ensures { result ≡ next_byte self byte }
    {
        match (self, byte) {
            (Awaited::Character, _) => after_first(byte),
            (Awaited::One, 0x80..=0xBF) => Some(Awaited::Character),
            (Awaited::Two, 0x80..=0xBF) => Some(Awaited::One),
            (Awaited::Three, 0x80..=0xBF) => Some(Awaited::Two),
            (Awaited::AfterE0, 0xA0..=0xBF) => Some(Awaited::One),
            (Awaited::AfterEd, 0x80..=0x9F) => Some(Awaited::One),
            (Awaited::AfterF0, 0x90..=0xBF) => Some(Awaited::Two),
            (Awaited::AfterF4, 0x80..=0x8F) => Some(Awaited::Two),
            _ => None,
        }
    }
}

impl Progress {
    /// How far the text has come with one byte more.
    fn after(self, byte: u8) -> Option<Progress>
        ensures { result ≡ progress_after self byte }
    {
        let between = self.awaited.is_between();
        if between && self.characters >= MOST_CHARACTERS {
            return None;
        }
        match self.awaited.after(byte) {
            Some(awaited) => Some(Progress {
                awaited,
                characters: self.characters + usize::from(between),
            }),
            None => None,
        }
    }

    /// Whether the text has a character and ends with one.
    fn is_whole(self) -> bool
        ensures { result ≡ is_whole self }
    {
        self.awaited.is_between() && self.characters > 0
    }
}

/// The place at which bytes are no front of a text with so many characters, or their length where they are such a
/// front alone; none where they are such a text.
pub(crate) fn label_fault(text: &[u8]) -> Option<usize>
    ensures { result ≡ fault_after no_progress 0 text.now }
{
    let mut progress = Progress {
        awaited: Awaited::Character,
        characters: 0,
    };
    for (place, byte) in text.iter().enumerate() {
        match progress.after(*byte) {
            Some(further) => progress = further,
            None => return Some(place),
        }
    }
    if progress.is_whole() {
        None
    } else {
        Some(text.len())
    }
}

/// The text of bytes that are a label's.
#[tactic(auto, using(crate::proofs::LabelLemmas::label_no_fault, crate::proofs::LabelLemmas::label_fault_place, crate::proofs::LabelLemmas::label_is_utf8))]
pub(crate) fn read_label_text(alloc: Global, bytes: &[u8]) -> Result<Text, ReadRefused>
    ensures value { IfOk result (λ text. text ≡ bytes.now) }
    ensures spelled { OnOk result (IsTrue (is_label bytes.now)) }
    ensures refused { IfErr result (IsRefusal is_label bytes.now) }
{
    match label_fault(bytes) {
        Some(place) => Err(ReadRefused::Spelling(place)),
        None => Ok(Text::from_utf8(alloc, bytes)?),
    }
}
