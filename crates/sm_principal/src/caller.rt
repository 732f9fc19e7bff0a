//! The person that a message's Authorization field names (Signature Version 4: `Credential=<key>/<date>/..`).
ghost use Rattle.std.specs.Prelude.{◌≡◌, ◌≤◌, IfOk, IsTrue, None, Some, drop, length, if◌then◌else◌, option_copied, option_map};
ghost use Rattle.sm_base.specs.Outcomes.{OrMemory};
ghost use Rattle.sm_principal.specs.Callers.{begins, after_credential, key_of, key_in, root, known_named, known_or, caller_named, caller_of, told_caller};
ghost use Rattle.sm_principal.specs.Lines.{is_key};

use crate::known::Known;
use crate::lines::{is_key, parted};
use crate::people::People;
use sm_base::text::same_text;
use sm_base::{Copied, Text};
use sm_model::Person;
use std::alloc::Global;

/// Why nobody asks.
#[derive(Drop)]
pub enum CallerRefused {
    /// There is no Authorization field, or it spells no key.
    NoCredential,
    /// No person has the key.
    Unknown(Text),
    Memory,
}

/// What stands behind `Credential=`, where the text begins with that.
#[tactic(auto, unfolding(crate::specs::Callers::begins))]
fn behind_credential(text: &[u8]) -> Option<&[u8]>
    ensures { option_map (λ t. t.now) result ≡ (if begins text.now then Some (drop 11 text.now) else None) }
{
    text.strip_prefix(b"Credential=")
}

/// What stands behind the first `Credential=`.
#[tactic(auto, using(crate::proofs::CallerLemmas::credential_here, crate::proofs::CallerLemmas::credential_later, crate::proofs::CallerLemmas::credential_none))]
fn after_credential(text: &[u8]) -> Option<&[u8]>
    ensures { option_map (λ t. t.now) result ≡ after_credential text.now }
{
    for place in 0..text.len() {
        match behind_credential(text.split_at(place).1) {
            Some(rest) => return Some(rest),
            None => {}
        }
    }
    None
}

/// The key that stands up to the next `/`.
fn key_of(text: &[u8]) -> Option<&[u8]>
    ensures { option_map (λ t. t.now) result ≡ key_of text.now }
{
    match parted(b'/', text) {
        Some((key, _)) => { if is_key(key) { Some(key) } else { None } }
        None => None,
    }
}

/// The key that an Authorization field spells.
#[tactic(auto, using(crate::proofs::CallerLemmas::key_found, crate::proofs::CallerLemmas::no_key))]
fn key_in(header: &[u8]) -> Option<&[u8]>
    ensures { option_map (λ t. t.now) result ≡ key_in header.now }
{
    match after_credential(header) {
        Some(rest) => key_of(rest),
        None => None,
    }
}

/// The person with the key.
#[tactic(auto, using(crate::proofs::CallerLemmas::known_here, crate::proofs::CallerLemmas::known_later, crate::proofs::CallerLemmas::known_none))]
pub(crate) fn known_named<'a>(key: &[u8], known: &'a [Known]) -> Option<&'a Known>
    ensures { option_copied result ≡ known_named key.now known.now }
{
    for one in known {
        if same_text(one.person().key.as_bytes(), key) {
            return Some(one);
        }
    }
    None
}

#[tactic(auto, unfolding(crate::specs::Callers::root_arn))]
fn root() -> Person
    ensures root { result ≡ root }
    ensures short { length result.arn ≤ 154 }
{
    Person {
        key: Text::fixed(""),
        arn: Text::fixed("arn:aws:iam::000000000000:root"),
        full: true,
    }
}

/// A copy of the person with the key.
#[tactic(auto, using(crate::proofs::LineLemmas::key_is_text))]
fn copy_of(alloc: Global, key: &[u8], known: &[Known]) -> Result<Person, CallerRefused>
    requires { IsTrue (is_key key.now) }
    ensures caller { OrMemory (told_caller result) (known_or key.now (known_named key.now known.now)) }
    ensures short { IfOk result (λ person. length person.arn ≤ 154) }
{
    match known_named(key, known) {
        Some(one) => match one.person().copy(alloc) {
            Ok(person) => Ok(person),
            Err(_) => Err(CallerRefused::Memory),
        },
        None => match Text::from_utf8(alloc, key) {
            Ok(key) => Err(CallerRefused::Unknown(key)),
            Err(_) => Err(CallerRefused::Memory),
        },
    }
}

/// Who asks, of these persons, by the key that the field spells.
#[tactic(auto, using(crate::proofs::CallerLemmas::key_is_key))]
fn caller_named(alloc: Global, known: &[Known], header: &[u8]) -> Result<Person, CallerRefused>
    ensures caller { OrMemory (told_caller result) (caller_named known.now (key_in header.now)) }
    ensures short { IfOk result (λ person. length person.arn ≤ 154) }
{
    match key_in(header) {
        Some(key) => copy_of(alloc, key, known),
        None => Err(CallerRefused::NoCredential),
    }
}

impl People {
    /// Who asks by a message's Authorization field, where it has one. The person's ARN has at most 154 bytes.
    pub fn caller(&self, alloc: Global, header: Option<&[u8]>) -> Result<Person, CallerRefused>
        ensures caller { OrMemory (told_caller result) (caller_of self.now (option_map (λ t. t.now) header.entry)) }
        ensures short { IfOk result (λ person. length person.arn ≤ 154) }
    {
        match self {
            People::Everybody => Ok(root()),
            People::Listed(known) => match header {
                Some(header) => caller_named(alloc, known.as_slice(), header),
                None => Err(CallerRefused::NoCredential),
            },
        }
    }
}
