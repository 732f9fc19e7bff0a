//! The persons that may ask.
ghost use Rattle.std.specs.Prelude.{◌≡◌, ℕ, option_copied};
ghost use Rattle.std.specs.List.{list_any};
ghost use Rattle.sm_base.specs.Outcomes.{OrMemory};
ghost use Rattle.sm_principal.specs.Callers.{people_of, has_secret, has_secrets, secret_in, secret_of, told, IsKnown};
ghost use Rattle.sm_principal.specs.Lines.{persons_of};

use crate::caller::known_named;
use crate::known::Known;
use crate::lines::{LineRefused, parted, with_line};
use sm_base::{List, Text};
use std::alloc::Global;

/// Who may ask.
#[derive(Drop)]
pub enum People {
    /// No people text: everybody may, as the full person of the account's root.
    Everybody,
    /// These persons, by their keys.
    Listed(List<Known>),
}

/// Why a people text is not read.
#[derive(Drop)]
pub enum PeopleRefused {
    /// The number of the first bad line, counted from 1.
    BadLine(u64),
    Memory,
}

/// The persons of a text, line by line.
#[tactic(auto, using(crate::proofs::PeopleLemmas::shorter, crate::proofs::PeopleLemmas::goes_on, crate::proofs::PeopleLemmas::line_is_bad, crate::proofs::PeopleLemmas::last_line, crate::proofs::PeopleLemmas::last_is_bad))]
fn persons_of(alloc: Global, text: &[u8]) -> Result<List<Known>, PeopleRefused>
    ensures { IsKnown result (persons_of text.now) }
{
    let mut known = List::empty(alloc);
    let mut left = text;
    let mut number = 1u64;
    while let Some((line, rest)) = parted(b'\n', left) {
        match with_line(alloc, known, line) {
            Ok(more) => known = more,
            Err(LineRefused::Bad) => return Err(PeopleRefused::BadLine(number)),
            Err(LineRefused::Memory) => return Err(PeopleRefused::Memory),
        }
        left = rest;
        number += 1;
    }
    match with_line(alloc, known, left) {
        Ok(known) => Ok(known),
        Err(LineRefused::Bad) => Err(PeopleRefused::BadLine(number)),
        Err(LineRefused::Memory) => Err(PeopleRefused::Memory),
    }
}

impl People {
    /// Reads a people text, or names its first bad line. A text without a byte says that everybody may ask.
    pub fn read(alloc: Global, text: &[u8]) -> Result<People, PeopleRefused>
        ensures { OrMemory (told result) (people_of text.now) }
    {
        if text.is_empty() {
            return Ok(People::Everybody);
        }
        match persons_of(alloc, text) {
            Ok(known) => Ok(People::Listed(known)),
            Err(refused) => Err(refused),
        }
    }

    /// The secret by which the person with a key signs, where the line has one. It takes no memory.
    pub fn secret(&self, key: &Text) -> Option<&[u8]>
        ensures { option_copied result ≡ secret_of self.now key.now }
    {
        match self {
            People::Everybody => None,
            People::Listed(known) => secret_in(known_named(key.as_bytes(), known.as_slice())),
        }
    }

    /// Whether some line has a secret, so that somebody must sign.
    pub fn has_secrets(&self) -> bool
        ensures { result ≡ has_secrets self.now }
    {
        match self {
            People::Everybody => false,
            People::Listed(known) => have_secret(known.as_slice()),
        }
    }
}

/// Whether some line has a secret.
fn have_secret(known: &[Known]) -> bool
    ensures { result ≡ list_any has_secret known.now }
{
    known.iter().any(|one| one.has_secret())
}

/// The secret of a person, where there is one.
fn secret_in(known: Option<&Known>) -> Option<&[u8]>
    ensures { option_copied result ≡ secret_in (option_copied known.entry) }
{
    match known {
        Some(known) => known.secret(),
        None => None,
    }
}
