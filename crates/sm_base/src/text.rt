//! Texts.
ghost use Rattle.std.specs.Prelude.{◌≡◌, ℕ, ◌↔◌, IsTrue, IfOk, IsUtf8, length, string_bytes};
ghost use Rattle.std.specs.Str.{chars, is_utf8};
ghost use Rattle.sm_base.specs.Texts.{same_text, has_at_most};

use crate::memory::{Copied, NoMemory};
use std::alloc::Global;
use std::marker::Model;
use std::str;
use std::sync::ArcStr;

/// From how many bytes on a text that is brought is shared: a shorter one is copied as fast as it is counted.
const SHARED_FROM: usize = 128;

/// Where a text lies.
#[derive(Drop)]
enum Kept {
    /// The program's own.
    Fixed(&'static str),
    Owned(String),
    /// With its copies.
    Shared(ArcStr),
}

/// UTF-8 text, which contracts see as the list of its bytes. A text that the program itself has, such as the
/// name of a member, takes no memory. Copies of a copy share its bytes, so that only the first copy of a text is one of
/// its bytes, and none of a text that is shared from the start.
pub struct Text {
    kept: Kept,
}

/// Where a text lies is looked at here alone: who lets a text go makes one call.
impl Drop for Text {
    fn drop(self) {
        let Text { kept } = self;
        drop(kept);
    }
}

impl Model for Text {
    ghost use Rattle.std.specs.Prelude.{List, ℕ};
    ghost use Rattle.sm_base.specs.Texts.{kept_bytes};

    ghost Value = { List ℕ };

    ghost view = { λ t. kept_bytes t.kept };
}

impl Text {
    /// The text of a string. It takes no memory.
    pub fn new(string: String) -> Text
        ensures { result ≡ string_bytes string }
    {
        Text {
            kept: Kept::Owned(string),
        }
    }

    /// A text of the program's own. It takes no memory.
    pub fn fixed(text: &'static str) -> Text
        ensures { result ≡ text.now }
    {
        Text {
            kept: Kept::Fixed(text),
        }
    }

    /// The text of a string, which its copies share from the first one on. It takes memory for their count alone.
    pub fn shared(string: String) -> Result<Text, NoMemory>
        ensures { IfOk result (λ t. t ≡ string_bytes string) }
    {
        let text = ArcStr::from_string(string)?;
        Ok(Text {
            kept: Kept::Shared(text),
        })
    }

    /// A text with these characters.
    pub fn from_str(alloc: Global, text: &str) -> Result<Text, NoMemory>
        ensures { IfOk result (λ t. t ≡ text.now) }
    {
        Ok(Text::new(String::from_str(alloc, text)?))
    }

    /// A text with these characters, which a message or a record brought: where it is long, its copies share it from
    /// the start, since what makes a version is kept as an entry of the history and as a row.
    pub fn brought(alloc: Global, text: &str) -> Result<Text, NoMemory>
        ensures { IfOk result (λ t. t ≡ text.now) }
    {
        if text.len() < SHARED_FROM {
            return Text::from_str(alloc, text);
        }
        Text::shared(String::from_str(alloc, text)?)
    }

    /// The text of bytes that are UTF-8.
    #[tactic(auto, using(crate::proofs::FaultLemmas::utf8_is_text))]
    pub fn from_utf8(alloc: Global, bytes: &[u8]) -> Result<Text, NoMemory>
        requires { IsTrue (is_utf8 bytes.now) }
        ensures { IfOk result (λ t. t ≡ bytes.now) }
    {
        match str::from_utf8(bytes) {
            Ok(text) => Text::from_str(alloc, text),
            Err(_) => unreachable!(),
        }
    }

    /// The text as a string. It takes memory only for a text of the program's own and for one that was copied.
    pub fn into_string(self, alloc: Global) -> Result<String, NoMemory>
        ensures { IfOk result (λ s. string_bytes s ≡ self) }
    {
        let Text { kept } = self;
        match kept {
            Kept::Owned(string) => Ok(string),
            Kept::Fixed(text) => Ok(String::from_str(alloc, text)?),
            Kept::Shared(text) => Ok(String::from_str(alloc, text.as_str())?),
        }
    }

    pub fn as_str(&self) -> &str
        ensures { result.now ≡ self.now }
    {
        match &self.kept {
            Kept::Fixed(text) => text,
            Kept::Owned(string) => string.as_str(),
            Kept::Shared(text) => text.as_str(),
        }
    }

    pub fn as_bytes(&self) -> &[u8]
        ensures value { result.now ≡ self.now }
        ensures utf8 { IsUtf8 result.now }
    {
        self.as_str().as_bytes()
    }

    /// How many bytes it has.
    pub fn len(&self) -> usize
        ensures { result ≡ length self.now }
    {
        self.as_str().len()
    }

    pub fn is_empty(&self) -> bool
        ensures { IsTrue result ↔ (length self.now ≡ 0) }
    {
        self.len() == 0
    }

    /// Whether both have the same bytes.
    pub fn equals(&self, other: &Text) -> bool
        ensures { IsTrue result ↔ (self.now ≡ other.now) }
    {
        self.as_str() == other.as_str()
    }
}

impl Copied for Text {
    fn copy(&self, alloc: Global) -> Result<Text, NoMemory> {
        let kept = match &self.kept {
            Kept::Fixed(text) => Kept::Fixed(text),
            Kept::Owned(string) => Kept::Shared(ArcStr::from_str(alloc, string.as_str())?),
            Kept::Shared(text) => Kept::Shared(text.clone()?),
        };
        Ok(Text { kept })
    }
}

impl PartialEq for Text {
    ghost use Rattle.std.specs.Cmp.Lexicographic.{pointwise, nat_list_eq_equiv};
    ghost use Rattle.std.specs.Cmp.{partial_equiv_from_equiv};
    ghost use Rattle.std.specs.Prelude.{nat_eq};

    ghost eq = { pointwise nat_eq };

    ghost laws = { partial_equiv_from_equiv nat_list_eq_equiv };

    fn eq(&self, other: &Text) -> bool {
        self.as_str() == other.as_str()
    }
}

/// Whether both texts have the same bytes.
#[tactic(auto, unfolding(crate::specs::Texts::same_text))]
pub fn same_text(one: &[u8], other: &[u8]) -> bool
    ensures { result ≡ same_text one.now other.now }
{
    one == other
}

/// How many characters a text has.
pub fn characters(text: &Text) -> usize
    ensures { result ≡ length (chars text.now) }
{
    text.as_str().chars().count()
}

/// Whether a text has at most so many characters.
pub fn has_at_most(text: &Text, limit: usize) -> bool
    ensures { result ≡ has_at_most limit text.now }
{
    characters(text) <= limit
}
