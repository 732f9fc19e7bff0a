//! The password of drawn bytes.
ghost use Rattle.std.specs.Prelude.{◌≡◌, ◌<◌, ◌+◌, ◌*◌, IsTrue, IfOk, length};
ghost use Rattle.std.specs.List.{concat};
ghost use Rattle.sm_base.specs.Outcomes.{OrMemory};
ghost use Rattle.sm_password.specs.Passwords.{word, draft_character, inserted, place, is_length, password_of, told, HasAskedAlone, HasEach};

use crate::alphabet::{Alphabet, alphabet_of};
use crate::ask::{PasswordAsk, PasswordRefused};
use sm_base::limits::PASSWORD_LIMIT;
use sm_base::{NoMemory, Text};
use std::alloc::Global;

/// Word k of the drawn bytes, big end first.
fn word(drawn: &[u8], k: usize) -> usize
    requires { 2 * k + 1 < length drawn.now }
    ensures { result ≡ word drawn.now k }
{
    256 * usize::from(drawn[2 * k]) + usize::from(drawn[2 * k + 1])
}

/// Character k of the draft.
fn draft_character(alphabet: &Alphabet, drawn: &[u8], k: usize) -> u8
    requires some { 0 < length (concat alphabet.now.classes.items) }
    requires enough { 2 * k + 1 < length drawn.now }
    ensures { result ≡ draft_character alphabet.now.classes.items alphabet.now.required drawn.now k }
{
    let choices = alphabet.choices(k);
    choices[word(drawn, k) % choices.len()]
}

/// The characters of the draft, each inserted at its place.
fn mixed(
    alloc: Global,
    alphabet: &Alphabet,
    drawn: &[u8],
    count: usize,
) -> Result<Vec<u8>, NoMemory>
    requires some { 0 < length (concat alphabet.now.classes.items) }
    requires enough { length drawn.now ≡ 4 * count }
    ensures { IfOk result (λ text. text.items
        ≡ inserted (draft_character alphabet.now.classes.items alphabet.now.required drawn.now) (place count drawn.now)
        count) }
{
    let mut text = Vec::with_capacity(alloc, count)?;
    for k in 0..count {
        let place = word(drawn, count + k) % (k + 1);
        text.insert(place, draft_character(alphabet, drawn, k))?;
    }
    Ok(text)
}

/// The password of the drawn bytes.
pub fn password(alloc: Global, ask: &PasswordAsk, drawn: &[u8]) -> Result<Text, PasswordRefused>
    requires { IsTrue (is_length ask.now.length) → length drawn.now ≡ 4 * ask.now.length }
    ensures answer { OrMemory (told result) (password_of ask.now drawn.now) }
    ensures long { IfOk result (λ text. length text ≡ ask.now.length) }
    ensures asked { IfOk result (HasAskedAlone ask.now) }
    ensures each { IfOk result (λ text. IsTrue ask.now.each → HasEach ask.now text) }
{
    if ask.length < 1 || ask.length > PASSWORD_LIMIT {
        return Err(PasswordRefused::Length);
    }
    let alphabet = alphabet_of(alloc, ask)?;
    if alphabet.is_empty() {
        return Err(PasswordRefused::Empty);
    }
    let length = ask.length as usize;
    if length < alphabet.required {
        return Err(PasswordRefused::TooShort);
    }
    let text = mixed(alloc, &alphabet, drawn, length)?;
    Ok(Text::from_utf8(alloc, text.as_slice())?)
}
