//! Judging GetRandomPassword (AWS Secrets Manager API Reference, GetRandomPassword).
ghost use Rattle.std.specs.Prelude.{◌≡◌, ◌*◌, IfOk, IsTrue, None, length};
ghost use Rattle.sm_forms.specs.GetRandomPassword.{length_asked, excluded, password_ask, IsPasswordAsk, password_forms};
ghost use Rattle.sm_forms.specs.Paging.{is_count};
ghost use Rattle.sm_judge_lists_and_passwords.specs.GetRandomPassword.{password_judgement};
ghost use Rattle.sm_model.specs.Bounds.{fits};
ghost use Rattle.sm_model.specs.Needed.{needed};
ghost use Rattle.sm_base.specs.declared.limits.TheConstants.{PASSWORD_LIMIT};
ghost use Rattle.sm_password.specs.Passwords.{password_text};

use sm_base::limits::PASSWORD_LENGTH;
use sm_judge_common::Judged;
use sm_model::{Copied, GetRandomPassword, NoMemory, RandomPassword, Reply, Request, Text};
use sm_password::{PasswordAsk, PasswordRefused, password};
use std::alloc::Global;

/// Judges a GetRandomPassword, with the random bytes that were drawn for it.
#[tactic(auto, using(sm_forms::proofs::GetRandomPasswordLemmas::password_needs, sm_forms::proofs::GetRandomPasswordLemmas::password_asked))]
pub fn judge_password(
    alloc: Global,
    drawn: &[u8],
    get: &GetRandomPassword,
) -> Result<Judged, NoMemory>
    requires forms { password_forms get.now ≡ None }
    requires drawn { length drawn.now ≡ needed (Request.GetRandomPassword get.now) }
    ensures { IfOk result (λ judged. judged ≡ password_judgement drawn.now get.now) }
{
    let ask = password_ask(alloc, get)?;
    let reply = RandomPassword {
        random_password: password_text(alloc, &ask, drawn)?,
    };
    Judged::reads(alloc, Reply::GetRandomPassword(reply))
}

/// What is asked of the password.
#[tactic(auto, using(sm_forms::proofs::GetRandomPasswordLemmas::password_length))]
fn password_ask(alloc: Global, get: &GetRandomPassword) -> Result<PasswordAsk, NoMemory>
    requires { password_forms get.now ≡ None }
    ensures { IfOk result (λ ask. ask ≡ password_ask get.now) }
{
    Ok(PasswordAsk {
        length: length_asked(get.password_length),
        exclude: excluded(alloc, &get.exclude_characters)?,
        lower: !get.exclude_lowercase,
        upper: !get.exclude_uppercase,
        digits: !get.exclude_numbers,
        punctuation: !get.exclude_punctuation,
        space: get.include_space,
        each: get.require_each_included_type,
    })
}

/// The length that is asked for, or 32.
fn length_asked(length: Option<i64>) -> u32
    requires { IsTrue (fits (is_count PASSWORD_LIMIT) length) }
    ensures { result ≡ length_asked length }
{
    match length {
        Some(length) => length as u32,
        None => PASSWORD_LENGTH,
    }
}

/// The characters that the password doesn't have.
fn excluded(alloc: Global, characters: &Option<Text>) -> Result<Text, NoMemory>
    ensures { IfOk result (λ text. text ≡ excluded characters.now) }
{
    match characters {
        Some(characters) => characters.copy(alloc),
        None => Ok(Text::fixed("")),
    }
}

/// The password of the drawn bytes.
#[tactic(auto, using(crate::proofs::GetRandomPasswordLemmas::asked_is_text))]
fn password_text(alloc: Global, ask: &PasswordAsk, drawn: &[u8]) -> Result<Text, NoMemory>
    requires asked { IsPasswordAsk ask.now }
    requires drawn { length drawn.now ≡ 4 * ask.now.length }
    ensures { IfOk result (λ text. text ≡ password_text ask.now drawn.now) }
{
    match password(alloc, ask, drawn) {
        Ok(text) => Ok(text),
        Err(PasswordRefused::Memory) => Err(NoMemory),
        Err(PasswordRefused::Length) => unreachable!(),
        Err(PasswordRefused::Empty) => unreachable!(),
        Err(PasswordRefused::TooShort) => unreachable!(),
    }
}
