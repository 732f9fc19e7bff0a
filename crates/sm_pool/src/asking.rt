//! Asking a rotator.
ghost use Rattle.std.specs.Prelude.{◌≡◌, ◌≤◌, ◌∷◌, [], true, IfOk, OnErr};
ghost use Rattle.sm_base.specs.Faults.{Rose};
ghost use Rattle.sm_model.specs.declared.entry.Answer.TheVariants.{Failed};
ghost use Rattle.sm_rotator.specs.Told.{append_told};

use sm_model::NoMemory;
use sm_rotator::{Asked, Rotator, Verdict, Work};

/// Asks the rotator to do a work, once, and nothing else. The verdict has the rotator's answer, which is a failure only
/// where the rotator's count of faults rose.
pub fn ask<R: Rotator>(rotator: &mut R, work: Work) -> Result<Verdict<R>, NoMemory>
    ensures work { IfOk result (λ verdict. verdict.work ≡ work) }
    ensures allowed { IfOk result (λ verdict. R.replies verdict.work.arn verdict.work.at verdict.work.current
        verdict.work.pending verdict.answer ≡ true) }
    ensures failed { IfOk result (λ verdict. verdict.answer ≡ Failed
        → Rose (R.faults rotator.old) (R.faults rotator.new)) }
    ensures later { R.faults rotator.old ≤ R.faults rotator.new }
    ensures asked { IfOk result (λ verdict. R.told rotator.new ≡ append_told (R.told rotator.old)
        (record { work = verdict.work; answer = verdict.answer } ∷ [])) }
    ensures unasked { OnErr result (R.told rotator.new ≡ R.told rotator.old) }
{
    match rotator.ask(&work) {
        Asked::Answered(answer) => Ok(Verdict::new(work, answer)),
        Asked::Memory => Err(NoMemory),
    }
}
