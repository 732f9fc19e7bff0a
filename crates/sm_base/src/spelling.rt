//! Names, tokens, labels and ARNs: texts in their spelling.
ghost use Rattle.std.specs.Prelude.{◌≡◌, ◌↔◌, IsTrue, IfOk, OnOk, IfErr, string_bytes};
ghost use Rattle.sm_base.specs.Spelling.{is_name, is_token, is_label, is_arn};
ghost use Rattle.sm_base.specs.Reading.{IsRefusal};
ghost use Rattle.sm_base.specs.Drawn.{drawn_token, drawn_arn, suffix_character};

use crate::characters::read_label_text;
use crate::memory::{Copied, NoMemory};
use crate::parts::{ARN, NAME, TOKEN, read_parts};
use crate::text::Text;
use std::alloc::Global;
use std::error::Error;
use std::fmt;
use std::marker::Model;
use uuid::Builder;

/// Why a text was not read.
#[derive(Clone, Copy, Debug, PartialEq, Eq)]
pub enum ReadRefused {
    /// It is not in the spelling. The number is the first place, in bytes, at which no continuation is, or the
    /// text's length.
    Spelling(usize),
    Memory,
}

impl fmt::Display for ReadRefused {
    fn fmt<W: fmt::Write>(&self, f: &mut fmt::Formatter<W>) -> fmt::Result {
        match self {
            ReadRefused::Spelling(place) => write!(f, "not in the spelling at byte {place}"),
            ReadRefused::Memory => f.write_str("out of memory"),
        }
    }
}

impl Error for ReadRefused {}

impl From<NoMemory> for ReadRefused {
    ghost use Rattle.std.specs.Prelude.{◌≡◌};
    ghost use Rattle.sm_base.specs.declared.spelling.ReadRefused.TheVariants.{Memory};

    ghost from_gives = { λ _ refused. refused ≡ Memory };

    fn from(_error: NoMemory) -> ReadRefused {
        ReadRefused::Memory
    }
}

/// The name of a secret: 1 to 512 ASCII letters, digits and `/_+=.@-`.
#[derive(Drop)]
pub struct Name {
    text: Text,
}

impl Model for Name {
    ghost use Rattle.std.specs.Prelude.{List, ℕ, IsTrue};
    ghost use Rattle.sm_base.specs.Spelling.{is_name};

    ghost Value = { List ℕ };

    ghost view = { λ n. n.text };

    ghost invariant = { λ n. IsTrue (is_name n.text) };
}

impl Name {
    /// The name of a text that is spelled as one.
    pub fn new(text: Text) -> Name
        requires { IsTrue (is_name text) }
        ensures { result ≡ text }
    {
        Name { text }
    }

    /// Reads a name.
    #[tactic(auto, using(crate::proofs::RunLemmas::name_is_run, crate::proofs::RunLemmas::name_refusal))]
    pub fn read(alloc: Global, text: &[u8]) -> Result<Name, ReadRefused>
        ensures value { IfOk result (λ name. name ≡ text.now) }
        ensures spelled { OnOk result (IsTrue (is_name text.now)) }
        ensures refused { IfErr result (IsRefusal is_name text.now) }
    {
        let text = read_parts(alloc, &NAME, text)?;
        Ok(Name { text })
    }

    pub fn as_text(&self) -> &Text
        ensures value { result.now ≡ self.now }
        ensures spelled { IsTrue (is_name self.now) }
    {
        &self.text
    }

    /// Whether both have the same bytes.
    pub fn equals(&self, other: &Name) -> bool
        ensures { IsTrue result ↔ (self.now ≡ other.now) }
    {
        self.text.equals(&other.text)
    }
}

impl Copied for Name {
    fn copy(&self, alloc: Global) -> Result<Name, NoMemory> {
        let text = self.text.copy(alloc)?;
        Ok(Name { text })
    }
}

/// A version's id: 32 to 64 characters from `!` to `~`.
#[derive(Drop)]
pub struct Token {
    text: Text,
}

impl Model for Token {
    ghost use Rattle.std.specs.Prelude.{List, ℕ, IsTrue};
    ghost use Rattle.sm_base.specs.Spelling.{is_token};

    ghost Value = { List ℕ };

    ghost view = { λ t. t.text };

    ghost invariant = { λ t. IsTrue (is_token t.text) };
}

impl Token {
    /// The token of a text that is spelled as one.
    pub fn new(text: Text) -> Token
        requires { IsTrue (is_token text) }
        ensures { result ≡ text }
    {
        Token { text }
    }

    /// Reads a token.
    #[tactic(auto, using(crate::proofs::RunLemmas::token_is_run, crate::proofs::RunLemmas::token_refusal))]
    pub fn read(alloc: Global, text: &[u8]) -> Result<Token, ReadRefused>
        ensures value { IfOk result (λ token. token ≡ text.now) }
        ensures spelled { OnOk result (IsTrue (is_token text.now)) }
        ensures refused { IfErr result (IsRefusal is_token text.now) }
    {
        let text = read_parts(alloc, &TOKEN, text)?;
        Ok(Token { text })
    }

    /// The version 4 UUID of 16 random bytes, in lower-case hexadecimal digits with hyphens. Copies share its text.
    #[tactic(auto, using(crate::proofs::DrawnLemmas::hyphenated_is_token))]
    pub fn drawn(alloc: Global, bytes: &[u8; 16]) -> Result<Token, NoMemory>
        ensures { IfOk result (λ token. token ≡ drawn_token bytes.now) }
    {
        let uuid = Builder::from_random_bytes(*bytes).into_uuid();
        let text = Text::shared(uuid.hyphenated().to_string(alloc)?)?;
        Ok(Token { text })
    }

    pub fn as_text(&self) -> &Text
        ensures value { result.now ≡ self.now }
        ensures spelled { IsTrue (is_token self.now) }
    {
        &self.text
    }

    /// Whether both have the same bytes.
    pub fn equals(&self, other: &Token) -> bool
        ensures { IsTrue result ↔ (self.now ≡ other.now) }
    {
        self.text.equals(&other.text)
    }
}

impl Copied for Token {
    fn copy(&self, alloc: Global) -> Result<Token, NoMemory> {
        let text = self.text.copy(alloc)?;
        Ok(Token { text })
    }
}

/// A staging label: 1 to 256 characters.
#[derive(Drop)]
pub struct Label {
    text: Text,
}

impl Model for Label {
    ghost use Rattle.std.specs.Prelude.{List, ℕ, IsTrue};
    ghost use Rattle.sm_base.specs.Spelling.{is_label};

    ghost Value = { List ℕ };

    ghost view = { λ l. l.text };

    ghost invariant = { λ l. IsTrue (is_label l.text) };
}

impl Label {
    /// The label of a text that is spelled as one.
    pub fn new(text: Text) -> Label
        requires { IsTrue (is_label text) }
        ensures { result ≡ text }
    {
        Label { text }
    }

    /// Reads a label.
    pub fn read(alloc: Global, text: &[u8]) -> Result<Label, ReadRefused>
        ensures value { IfOk result (λ label. label ≡ text.now) }
        ensures spelled { OnOk result (IsTrue (is_label text.now)) }
        ensures refused { IfErr result (IsRefusal is_label text.now) }
    {
        let text = read_label_text(alloc, text)?;
        Ok(Label { text })
    }

    pub fn as_text(&self) -> &Text
        ensures value { result.now ≡ self.now }
        ensures spelled { IsTrue (is_label self.now) }
    {
        &self.text
    }

    /// Whether both have the same bytes.
    pub fn equals(&self, other: &Label) -> bool
        ensures { IsTrue result ↔ (self.now ≡ other.now) }
    {
        self.text.equals(&other.text)
    }
}

impl Copied for Label {
    fn copy(&self, alloc: Global) -> Result<Label, NoMemory> {
        let text = self.text.copy(alloc)?;
        Ok(Label { text })
    }
}

/// The ARN of a secret: `arn:aws:secretsmanager:<region>:<account>:secret:<rest>`, with a region of 1 to 32
/// lower-case letters, digits or `-`, an account of 12 digits and a rest of 1 to 519 characters of names.
#[derive(Drop)]
pub struct Arn {
    text: Text,
}

impl Model for Arn {
    ghost use Rattle.std.specs.Prelude.{List, ℕ, IsTrue};
    ghost use Rattle.sm_base.specs.Spelling.{is_arn};

    ghost Value = { List ℕ };

    ghost view = { λ a. a.text };

    ghost invariant = { λ a. IsTrue (is_arn a.text) };
}

impl Arn {
    /// Reads an ARN.
    #[tactic(auto, using(crate::proofs::ArnLemmas::arn_is_parts, crate::proofs::ArnLemmas::arn_refusal, crate::proofs::ArnLemmas::region_ends))]
    pub fn read(alloc: Global, text: &[u8]) -> Result<Arn, ReadRefused>
        ensures value { IfOk result (λ arn. arn ≡ text.now) }
        ensures spelled { OnOk result (IsTrue (is_arn text.now)) }
        ensures refused { IfErr result (IsRefusal is_arn text.now) }
    {
        let text = read_parts(alloc, &ARN, text)?;
        Ok(Arn { text })
    }

    /// The ARN of a new secret with this name: it ends in the characters of six random bytes. Copies share its text.
    #[tactic(auto, using(crate::proofs::DrawnLemmas::drawn_arn_is_arn))]
    pub fn drawn(alloc: Global, name: &Name, six: &[u8; 6]) -> Result<Arn, NoMemory>
        ensures { IfOk result (λ arn. arn ≡ drawn_arn name.now six.now) }
    {
        let text = Text::shared(drawn_arn_text(alloc, name.as_text(), six)?)?;
        Ok(Arn { text })
    }

    pub fn as_text(&self) -> &Text
        ensures value { result.now ≡ self.now }
        ensures spelled { IsTrue (is_arn self.now) }
    {
        &self.text
    }

    /// Whether both have the same bytes.
    pub fn equals(&self, other: &Arn) -> bool
        ensures { IsTrue result ↔ (self.now ≡ other.now) }
    {
        self.text.equals(&other.text)
    }
}

#[tactic(auto, unfolding(crate::specs::Drawn::drawn_arn))]
fn drawn_arn_text(alloc: Global, name: &Text, six: &[u8; 6]) -> Result<String, NoMemory>
    ensures { IfOk result (λ text. string_bytes text ≡ drawn_arn name.now six.now) }
{
    let mut text = String::from_str(
        alloc,
        "arn:aws:secretsmanager:us-east-1:000000000000:secret:",
    )?;
    text.push_str(name.as_str())?;
    text.push('-')?;
    for byte in six {
        text.push(suffix_character(*byte))?;
    }
    Ok(text)
}

/// The character of a random byte at the end of an ARN: the byte modulo 62, into `A` to `Z`, `a` to `z`, `0` to `9`.
fn suffix_character(byte: u8) -> char
    ensures { result ≡ suffix_character byte }
{
    let n = byte % 62;
    let character = if n < 26 {
        b'A' + n
    } else if n < 52 {
        b'a' + (n - 26)
    } else {
        b'0' + (n - 52)
    };
    char::from(character)
}

impl Copied for Arn {
    fn copy(&self, alloc: Global) -> Result<Arn, NoMemory> {
        let text = self.text.copy(alloc)?;
        Ok(Arn { text })
    }
}
