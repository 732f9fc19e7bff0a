//! A rotator that gives the answers of a list.
ghost use Rattle.std.specs.Prelude.{◌≡◌, ◌≤◌, true, None};
ghost use Rattle.sm_base.specs.Faults.{Rose};
ghost use Rattle.sm_rotator.specs.Asked.{IfAnswered, OnFailed};
ghost use Rattle.sm_rotator.specs.Told.{TellsAsked};

use sm_model::Answer;
use sm_rotator::{Asked, LocalRotator, Rotator, Work};

/// One that gives the last answer of a list and takes it off, and behind them those of the local rotator.
#[derive(Drop)]
pub struct ListedRotator {
    pub answers: Vec<Answer>,
    pub local: LocalRotator,
    pub faults: u64,
}

impl Rotator for ListedRotator {
    ghost use Rattle.std.specs.Prelude.{refl};

    ghost replies = { λ arn at current pending answer. true };

    ghost faults = { λ rotator. rotator.faults };

    ghost told = { λ rotator. None };

    fn ask(&mut self, work: &Work) -> Asked {
        match self.answers.pop() {
            Some(Answer::Failed) => {
                self.faults = self.faults.saturating_add(1);
                Asked::Answered(Answer::Failed)
            }
            Some(Answer::Value(value)) => Asked::Answered(Answer::Value(value)),
            Some(Answer::Yes) => Asked::Answered(Answer::Yes),
            Some(Answer::No) => Asked::Answered(Answer::No),
            None => self.local.ask(work),
        }
    }

    ghost may_fail = { λ arn at current pending. refl };
}
