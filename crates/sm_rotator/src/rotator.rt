//! What a rotator is.
ghost use Rattle.std.specs.Prelude.{◌≡◌, ◌≤◌, ℕ, List, Option, Bool, true};
ghost use Rattle.sm_base.specs.Faults.{Rose};
ghost use Rattle.sm_model.specs.declared.entry.Answer.{Answer};
ghost use Rattle.sm_model.specs.declared.entry.Answer.TheVariants.{Failed};
ghost use Rattle.sm_model.specs.declared.entry.At.{At};
ghost use Rattle.sm_model.specs.declared.value.Value.{Value};
ghost use Rattle.sm_rotator.specs.Asked.{IfAnswered, OnFailed};
ghost use Rattle.sm_rotator.specs.Told.{Told, TellsAsked};

use crate::work::Work;
use sm_model::Answer;

/// What became of a question: the rotator's answer, or there was no memory to ask.
#[derive(Drop)]
pub enum Asked {
    Answered(Answer),
    Memory,
}

/// Who changes a secret in the service that it opens: AWS Secrets Manager User Guide, "Lambda rotation functions".
pub trait Rotator {
    /// Which answers it may give to a step of the rotation of the secret with an ARN, by the current and the pending
    /// value where the step has them.
    ghost replies: { List ℕ → At → Option Value → Option Value → Answer → Bool };

    /// How often it has failed. At 2^64 - 1 the count stands.
    ghost faults: { Self → ℕ };

    /// The works that it was asked to do, each with its answer, where it tells them.
    ghost told: { Self → Option (List Told) };

    /// Does one step, or says that it can't be done. `Failed` is answered only where the count of faults rose.
    fn ask(&mut self, work: &Work) -> Asked
        ensures allowed { IfAnswered result (λ answer.
            replies work.now.arn work.now.at work.now.current work.now.pending answer ≡ true) }
        ensures failed { OnFailed result (Rose (faults self.old) (faults self.new)) }
        ensures later { faults self.old ≤ faults self.new }
        ensures told { TellsAsked work.now result (told self.old) (told self.new) };

    /// Any step may fail.
    ghost may_fail: { (arn : List ℕ) (at : At) (current : Option Value) (pending : Option Value) →
        replies arn at current pending Failed ≡ true };
}
