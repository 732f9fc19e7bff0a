//! A rotator that changes the password in a JSON text.
ghost use Rattle.std.specs.Prelude.{◌≡◌, ◌≤◌, length, IfOk, IfSome, false, true, None, is_some, string_bytes, option_map, option_and_then};
ghost use Rattle.sm_base.specs.Faults.{Rose};
ghost use Rattle.std.specs.Str.{chars};
ghost use Rattle.serde_json.specs.Read.{read as read_text};
ghost use Rattle.serde_json.specs.View.{view};
ghost use Rattle.serde_json.specs.Written.{has_float, compact_text};
ghost use Rattle.sm_rotator.specs.Asked.{IfAnswered, OnFailed};
ghost use Rattle.sm_rotator.specs.Same.{may_give};
ghost use Rattle.sm_rotator.specs.Told.{TellsAsked};
ghost use Rattle.sm_rotator.specs.Local.{password_of, with_password, credentials_in, credentials, made_password, with_other, created, yes_if, is_long, local_answer};

use crate::floats::has_float;
use crate::rotator::{Asked, Rotator};
use crate::work::Work;
use serde_json::{Value as Json, put};
use sm_model::{Answer, NoMemory, Stage, Text, Token, Value};
use std::alloc::Global;

/// The fewest characters of a password that testSecret accepts.
const SHORTEST: usize = 8;

/// A rotator of texts that are JSON objects with a text member `password`, which it changes.
#[derive(Clone, Copy)]
pub struct LocalRotator {
    alloc: Global,
}

impl LocalRotator {
    /// One that never fails. It takes no memory.
    pub fn new(alloc: Global) -> LocalRotator
        ensures { ⟦<LocalRotator as Rotator>⟧.faults result ≡ 0 }
    {
        LocalRotator { alloc }
    }
}

/// The text that is an object's password.
#[tactic(auto, unfolding(crate::specs::Local::password_name))]
fn password_of(json: &Json) -> Option<&str>
    ensures { option_map (λ s. s.now) result ≡ password_of (view json.now) }
{
    json.get("password").and_then(Json::as_str)
}

/// The object, where it has a text as its password.
fn with_password(json: Json) -> Option<Json>
    ensures { option_map view result ≡ with_password (view json) }
{
    if password_of(&json).is_some() {
        Some(json)
    } else {
        None
    }
}

/// And where all its numbers are whole.
fn credentials_in(json: Json) -> Option<Json>
    ensures { option_map view result ≡ credentials_in (view json) }
{
    if has_float(&json) {
        None
    } else {
        with_password(json)
    }
}

/// What a text is as JSON.
fn read_text(alloc: Global, text: &Text) -> Result<Option<Json>, NoMemory>
    ensures { IfOk result (λ json. option_map view json ≡ read_text text.now) }
{
    match Json::from_str(alloc, text.as_str()) {
        Ok(json) => Ok(Some(json)),
        Err(error) => {
            if error.is_memory() {
                Err(NoMemory)
            } else {
                Ok(None)
            }
        }
    }
}

/// The object with a password that a value is.
fn credentials(alloc: Global, value: &Value) -> Result<Option<Json>, NoMemory>
    ensures { IfOk result (λ json. option_map view json ≡ credentials value.now) }
{
    match value {
        Value::Text(text) => match read_text(alloc, text)? {
            Some(json) => Ok(credentials_in(json)),
            None => Ok(None),
        },
        Value::Bytes(_) => Ok(None),
    }
}

/// The same of a value that may not be there.
fn credentials_if(alloc: Global, value: &Option<Value>) -> Result<Option<Json>, NoMemory>
    ensures { IfOk result (λ json. option_map view json ≡ option_and_then credentials value.now) }
{
    match value {
        Some(value) => credentials(alloc, value),
        None => Ok(None),
    }
}

/// The password that createSecret makes.
#[tactic(auto, unfolding(crate::specs::Local::made_password))]
fn made_password(alloc: Global, token: &Token) -> Result<String, NoMemory>
    ensures { IfOk result (λ password. string_bytes password ≡ made_password token.now) }
{
    let mut password = String::from_str(alloc, "rotated-")?;
    password.push_str(token.as_text().as_str())?;
    Ok(password)
}

/// The object with another password.
#[tactic(auto, unfolding(crate::specs::Local::password_name))]
fn with_other(alloc: Global, json: Json, password: String) -> Result<Json, NoMemory>
    ensures { IfOk result (λ other. view other ≡ with_other (string_bytes password) (view json)) }
{
    match json {
        Json::Object(mut members) => {
            put(&mut members, alloc, "password", Json::String(password))?;
            Ok(Json::Object(members))
        }
        other => Ok(other),
    }
}

/// The text of a value in which all numbers are whole.
fn text_of(alloc: Global, json: &Json) -> Result<Text, NoMemory>
    requires { has_float (view json.now) ≡ false }
    ensures { IfOk result (λ text. text ≡ compact_text (view json.now)) }
{
    Ok(Text::new(json.to_string(alloc)?))
}

/// createSecret.
#[tactic(auto, using(crate::proofs::FloatLemmas::other_plain))]
fn created(alloc: Global, token: &Token, current: Option<Json>) -> Result<Answer, NoMemory>
    requires { IfSome current (λ json. has_float (view json) ≡ false) }
    ensures { IfOk result (λ answer. answer ≡ created token.now (option_map view current)) }
{
    match current {
        Some(json) => {
            let password = made_password(alloc, token)?;
            let json = with_other(alloc, json, password)?;
            Ok(Answer::Value(Value::Text(text_of(alloc, &json)?)))
        }
        None => Ok(Answer::No),
    }
}

fn yes_if(agrees: bool) -> Answer
    ensures { result ≡ yes_if agrees }
{
    if agrees { Answer::Yes } else { Answer::No }
}

fn character_count(text: &str) -> usize
    ensures { result ≡ length (chars text.now) }
{
    text.chars().count()
}

/// Whether there is a password of at least eight characters.
fn is_long(password: Option<&str>) -> bool
    ensures { result ≡ is_long (option_map (λ s. s.now) password.entry) }
{
    match password {
        Some(password) => character_count(password) >= SHORTEST,
        None => false,
    }
}

/// testSecret, by the object that the pending value is.
fn tested(pending: Option<Json>) -> Answer
    ensures { result ≡ yes_if (is_long (option_and_then password_of (option_map view pending))) }
{
    match pending {
        Some(json) => yes_if(is_long(password_of(&json))),
        None => Answer::No,
    }
}

/// The answer to a step.
#[tactic(auto, using(crate::proofs::LocalLemmas::credentials_plain))]
fn local_answer(alloc: Global, work: &Work) -> Result<Answer, NoMemory>
    ensures { IfOk result (λ answer. answer ≡ local_answer work.now.at work.now.current work.now.pending) }
{
    match work.at.stage {
        Stage::Create => {
            let current = credentials_if(alloc, &work.current)?;
            created(alloc, &work.at.token, current)
        }
        Stage::Set => Ok(yes_if(credentials_if(alloc, &work.pending)?.is_some())),
        Stage::Test => Ok(tested(credentials_if(alloc, &work.pending)?)),
        Stage::Finish => Ok(Answer::Yes),
    }
}

impl Rotator for LocalRotator {
    ghost use Rattle.std.specs.Prelude.{refl};

    ghost replies = { λ arn at current pending answer. may_give (local_answer at current pending) answer };

    ghost faults = { λ rotator. 0 };

    ghost told = { λ rotator. None };

    #[tactic(auto, using(crate::proofs::SameLemmas::gives_wanted, crate::proofs::LocalLemmas::local_is_no_failure))]
    fn ask(&mut self, work: &Work) -> Asked
        ensures allowed { IfAnswered result (λ answer.
            may_give (local_answer work.now.at work.now.current work.now.pending) answer ≡ true) }
        ensures failed { OnFailed result (Rose 0 0) }
        ensures later { 0 ≤ 0 }
        ensures told { TellsAsked work.now result None None }

        // Exactly what it answers.
        ensures exactly { IfAnswered result (λ answer.
            answer ≡ local_answer work.now.at work.now.current work.now.pending) }
    {
        match local_answer(self.alloc, work) {
            Ok(answer) => Asked::Answered(answer),
            Err(NoMemory) => Asked::Memory,
        }
    }

    ghost may_fail = { λ arn at current pending. refl };
}
