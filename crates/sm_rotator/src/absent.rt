//! No rotator.
ghost use Rattle.std.specs.Prelude.{◌≡◌, ◌≤◌, None, refl};
ghost use Rattle.sm_base.specs.Faults.{Rose};
ghost use Rattle.sm_rotator.specs.Absent.{is_failed};

use crate::rotator::{Asked, Rotator};
use crate::work::Work;
use sm_model::Answer;

/// The rotator of an account in which nothing rotates: each step fails, and is counted.
#[derive(Clone, Copy, Debug, PartialEq, Eq)]
pub struct NoRotator {
    faults: u64,
}

impl NoRotator {
    /// One that was not asked yet.
    pub fn new() -> NoRotator
        ensures { ⟦<NoRotator as Rotator>⟧.faults result ≡ 0 }
    {
        NoRotator { faults: 0 }
    }
}

impl Rotator for NoRotator {
    ghost replies = { λ arn at current pending answer. is_failed answer };

    ghost faults = { λ rotator. rotator.faults };

    ghost told = { λ rotator. None };

    fn ask(&mut self, _work: &Work) -> Asked {
        self.faults = self.faults.saturating_add(1);
        Asked::Answered(Answer::Failed)
    }

    ghost may_fail = { λ arn at current pending. refl };
}
