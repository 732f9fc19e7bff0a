//! What a rotator answered to its work.
ghost use Rattle.std.specs.Prelude.{◌≡◌, true};

use crate::rotator::Rotator;
use crate::work::Work;
use sm_model::Answer;
use std::marker::PhantomData;

/// A work and the answer to it, which is one that the rotator may give: no verdict can be invented.
#[derive(Drop)]
pub struct Verdict<R: Rotator> {
    pub work: Work,
    pub answer: Answer,
    pub rotator: PhantomData<R>,
    ghost allowed: { R.replies work.arn work.at work.current work.pending answer ≡ true },
}

impl<R: Rotator> Verdict<R> {
    ghost use Rattle.std.specs.Prelude.{◌≡◌, true};

    /// The verdict on a work by an answer that the rotator may give. It takes no memory.
    pub fn new(work: Work, answer: Answer) -> Verdict<R>
        requires { R.replies work.arn work.at work.current work.pending answer ≡ true }
        ensures work { result.work ≡ work }
        ensures answer { result.answer ≡ answer }
    {
        Verdict {
            work,
            answer,
            rotator: PhantomData,
        }
    }

    /// The work. It takes no memory.
    pub fn work(&self) -> &Work
        ensures { result.now ≡ self.now.work }
    {
        &self.work
    }

    /// The answer. It takes no memory.
    pub fn answer(&self) -> &Answer
        ensures value { result.now ≡ self.now.answer }
        ensures allowed { R.replies self.now.work.arn self.now.work.at self.now.work.current self.now.work.pending
            result.now ≡ true }
    {
        &self.answer
    }
}
