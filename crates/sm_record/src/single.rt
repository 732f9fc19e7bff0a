//! Things that are one byte.
ghost use Rattle.std.specs.Prelude.{◌≡◌, ◌++◌, IsTrue, is_some};
ghost use Rattle.sm_model.specs.Bounds.{is_attempt};
ghost use Rattle.sm_record.specs.Codec.{read_byte};
ghost use Rattle.sm_record.specs.Fields.{truth, truth_of_byte, byte_of_truth, stage, stage_of_byte, byte_of_stage, attempt, attempt_of_byte};
ghost use Rattle.sm_record.specs.Reading.{Gives};

use crate::edition::Edition;
use crate::field::Field;
use crate::out::Out;
use crate::unread::Unread;
use sm_base::limits::ATTEMPTS_LIMIT;
use sm_model::Stage;
use std::alloc::Global;

/// The byte at the front.
pub fn byte_at(bytes: &[u8]) -> Result<(u8, &[u8]), Unread>
    ensures { Gives (λ x. (x.0, x.1.now)) result (read_byte bytes.now) }
{
    match bytes {
        [] => Err(Unread::Left(0)),
        [byte, rest @ ..] => Ok((*byte, rest)),
    }
}

fn truth_of_byte(byte: u8) -> Option<bool>
    ensures { result ≡ truth_of_byte byte }
{
    match byte {
        0 => Some(false),
        1 => Some(true),
        _ => None,
    }
}

fn byte_of_truth(truth: bool) -> u8
    ensures { result ≡ byte_of_truth truth }
{
    if truth { 1 } else { 0 }
}

impl Field for bool {
    ghost codec = { λ _. truth };

    #[tactic(auto, using(crate::proofs::FitLemmas::truth_fits), unfolding(crate::specs::Fields::truth))]
    fn fits(&self, _edition: Edition) -> bool {
        true
    }

    #[tactic(auto, unfolding(crate::specs::Fields::truth))]
    fn read_front(
        _alloc: Global,
        _edition: Edition,
        bytes: &[u8],
    ) -> Result<(bool, &[u8]), Unread> {
        let (byte, rest) = byte_at(bytes)?;
        match truth_of_byte(byte) {
            Some(truth) => Ok((truth, rest)),
            None => Err(Unread::Left(rest.len() + 1)),
        }
    }

    #[tactic(auto, unfolding(crate::specs::Fields::truth))]
    fn put(&self, _edition: Edition, out: &mut Out) {
        out.push(byte_of_truth(*self));
    }
}

fn stage_of_byte(byte: u8) -> Option<Stage>
    ensures { result ≡ stage_of_byte byte }
{
    match byte {
        1 => Some(Stage::Create),
        2 => Some(Stage::Set),
        3 => Some(Stage::Test),
        4 => Some(Stage::Finish),
        _ => None,
    }
}

fn byte_of_stage(step: Stage) -> u8
    ensures { result ≡ byte_of_stage step }
{
    match step {
        Stage::Create => 1,
        Stage::Set => 2,
        Stage::Test => 3,
        Stage::Finish => 4,
    }
}

impl Field for Stage {
    ghost codec = { λ _. stage };

    #[tactic(auto, using(crate::proofs::FitLemmas::stage_fits), unfolding(crate::specs::Fields::stage))]
    fn fits(&self, _edition: Edition) -> bool {
        true
    }

    #[tactic(auto, unfolding(crate::specs::Fields::stage))]
    fn read_front(
        _alloc: Global,
        _edition: Edition,
        bytes: &[u8],
    ) -> Result<(Stage, &[u8]), Unread> {
        let (byte, rest) = byte_at(bytes)?;
        match stage_of_byte(byte) {
            Some(step) => Ok((step, rest)),
            None => Err(Unread::Left(rest.len() + 1)),
        }
    }

    #[tactic(auto, unfolding(crate::specs::Fields::stage))]
    fn put(&self, _edition: Edition, out: &mut Out) {
        out.push(byte_of_stage(*self));
    }
}

/// Whether an attempt is one that is spelled.
#[tactic(auto, unfolding(crate::specs::Fields::attempt))]
pub fn attempt_fits(number: u32) -> bool
    ensures { result ≡ attempt.fits number }
{
    1 <= number && number <= ATTEMPTS_LIMIT
}

/// The attempt at a step of a rotation.
#[tactic(auto, unfolding(crate::specs::Fields::attempt))]
pub fn attempt_at(bytes: &[u8]) -> Result<(u32, &[u8]), Unread>
    ensures { Gives (λ x. (x.0, x.1.now)) result (attempt.read bytes.now) }
{
    let (byte, rest) = byte_at(bytes)?;
    let number = u32::from(byte);
    if 1 <= number && number <= ATTEMPTS_LIMIT {
        Ok((number, rest))
    } else {
        Err(Unread::Left(rest.len() + 1))
    }
}

/// Writes the attempt at a step of a rotation.
#[tactic(auto, using(crate::proofs::ReadingLemmas::attempt_is_byte), unfolding(crate::specs::Fields::attempt))]
pub fn put_attempt(out: &mut Out, number: u32)
    requires { IsTrue (attempt.fits number) }
    ensures { out.new ≡ out.old ++ attempt.spell number }
{
    out.push(number as u8);
}
