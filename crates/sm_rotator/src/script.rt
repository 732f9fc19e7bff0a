//! A rotator that goes by the token.
ghost use Rattle.std.specs.Prelude.{◌≡◌, ◌≤◌, ◌↔◌, IfOk, IsTrue, not, true, None, option_copied};
ghost use Rattle.sm_base.specs.Faults.{Rose};
ghost use Rattle.sm_io.specs.Calls.{no_calls, fails_next};
ghost use Rattle.sm_model.specs.declared.entry.Answer.{Answer};
ghost use Rattle.sm_model.specs.declared.entry.Answer.TheVariants.{Failed};
ghost use Rattle.sm_rotator.specs.Asked.{IfAnswered, OnFailed};
ghost use Rattle.sm_rotator.specs.Same.{may_give};
ghost use Rattle.sm_rotator.specs.Told.{TellsAsked};
ghost use Rattle.sm_rotator.specs.Script.{from_end, character, agrees, made_text, agreed, script_answer};

use crate::rotator::{Asked, Rotator};
use crate::work::Work;
use sm_io::Calls;
use sm_model::{Answer, At, Fails, NoMemory, Stage, Text, Token, Value};
use std::alloc::Global;

/// A rotator whose answer to each step stands in the last four characters of the token, and which fails at the calls
/// that are told to fail.
#[derive(Drop)]
pub struct ScriptRotator {
    alloc: Global,
    pub calls: Calls,
}

impl ScriptRotator {
    /// One that was not asked yet. It takes no memory.
    pub fn new(alloc: Global, fails: Fails) -> ScriptRotator
        ensures calls { result.calls ≡ no_calls fails }
        ensures faults { ⟦<ScriptRotator as Rotator>⟧.faults result ≡ 0 }
    {
        ScriptRotator {
            alloc,
            calls: Calls::new(fails),
        }
    }
}

/// How far from the token's end the stage's character is.
fn from_end(stage: Stage) -> usize
    ensures { result ≡ from_end stage }
{
    match stage {
        Stage::Create => 4,
        Stage::Set => 3,
        Stage::Test => 2,
        Stage::Finish => 1,
    }
}

/// The stage's character among the last four of the token.
fn character(token: &Token, stage: Stage) -> Option<&u8>
    ensures { option_copied result ≡ character token.now stage }
{
    let bytes = token.as_text().as_bytes();
    bytes.get(bytes.len().saturating_sub(from_end(stage)))
}

/// Whether the character lets the step be done at this attempt.
fn agrees(character: Option<&u8>, attempt: u32) -> bool
    ensures { result ≡ agrees (option_copied character.entry) attempt }
{
    match character {
        Some(&c) => {
            if c == b'n' {
                false
            } else if b'1' <= c && c <= b'4' {
                u32::from(c - b'0') < attempt
            } else {
                true
            }
        }
        None => true,
    }
}

/// The text that createSecret makes.
#[tactic(auto, unfolding(crate::specs::Script::made_text))]
fn made_text(alloc: Global, token: &Token) -> Result<Text, NoMemory>
    ensures { IfOk result (λ text. text ≡ made_text token.now) }
{
    let mut text = String::from_str(alloc, "s-")?;
    text.push_str(token.as_text().as_str())?;
    Ok(Text::new(text))
}

/// The answer to a step that agrees.
fn agreed(alloc: Global, at: &At) -> Result<Answer, NoMemory>
    ensures { IfOk result (λ answer. answer ≡ agreed at.now.token at.now.stage) }
{
    match at.stage {
        Stage::Create => Ok(Answer::Value(Value::Text(made_text(alloc, &at.token)?))),
        Stage::Set => Ok(Answer::Yes),
        Stage::Test => Ok(Answer::Yes),
        Stage::Finish => Ok(Answer::Yes),
    }
}

/// The answer to a step.
fn script_answer(alloc: Global, at: &At) -> Result<Answer, NoMemory>
    ensures { IfOk result (λ answer. answer ≡ script_answer at.now) }
{
    if agrees(character(&at.token, at.stage), at.attempt) {
        agreed(alloc, at)
    } else {
        Ok(Answer::No)
    }
}

impl Rotator for ScriptRotator {
    ghost use Rattle.std.specs.Prelude.{refl};

    ghost replies = { λ arn at current pending answer. may_give (script_answer at) answer };

    ghost faults = { λ rotator. rotator.calls.faults };

    ghost told = { λ rotator. None };

    #[tactic(auto, using(crate::proofs::SameLemmas::gives_wanted, crate::proofs::ScriptLemmas::script_is_no_failure))]
    fn ask(&mut self, work: &Work) -> Asked
        ensures allowed { IfAnswered result (λ answer. may_give (script_answer work.now.at) answer ≡ true) }
        ensures failed { OnFailed result (Rose self.old.calls.faults self.new.calls.faults) }
        ensures later { self.old.calls.faults ≤ self.new.calls.faults }
        ensures told { TellsAsked work.now result None None }

        // Exactly which call fails, and what the others answer.
        ensures fails { (result ≡ Asked.Answered Failed) ↔ IsTrue (fails_next self.old.calls) }
        ensures exactly { IsTrue (not (fails_next self.old.calls))
            → IfAnswered result (λ answer. answer ≡ script_answer work.now.at) }
    {
        if self.calls.next_fails() {
            self.calls.count_fault();
            return Asked::Answered(Answer::Failed);
        }
        self.calls.count_call();
        match script_answer(self.alloc, &work.at) {
            Ok(answer) => Asked::Answered(answer),
            Err(NoMemory) => Asked::Memory,
        }
    }

    ghost may_fail = { λ arn at current pending. refl };
}
