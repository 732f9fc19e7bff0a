//! A rotator that keeps what it was asked.
ghost use Rattle.std.specs.Prelude.{◌≡◌, ◌≤◌, ◌++◌, ◌∷◌, [], IfOk, OnErr, OnOk, Some, true};
ghost use Rattle.sm_base.specs.Faults.{Rose};
ghost use Rattle.sm_rotator.specs.Asked.{IfAnswered, OnFailed};
ghost use Rattle.sm_rotator.specs.Told.{TellsAsked};

use crate::rotator::{Asked, Rotator};
use crate::told::Told;
use crate::work::Work;
use sm_model::{Answer, Copied, NoMemory};
use std::alloc::Global;

/// A rotator that asks another one, and keeps each work with the answer to it. Where there is no memory to keep them,
/// there is none to ask.
#[derive(Drop)]
pub struct TellingRotator<R> {
    alloc: Global,
    asked: R,
    told: Vec<Told>,
}

impl<R> TellingRotator<R> {
    /// One that asks this one, and was not asked yet. It takes no memory.
    pub fn new(alloc: Global, asked: R) -> TellingRotator<R>
        ensures asked { result.asked ≡ asked }
        ensures told { result.told.items ≡ [] }
    {
        TellingRotator {
            alloc,
            asked,
            told: Vec::new(alloc),
        }
    }

    /// The works that it was asked to do, each with its answer, in order.
    pub fn told(&self) -> &[Told]
        ensures { result.now ≡ self.now.told.items }
    {
        self.told.as_slice()
    }
}

/// A work and the answer to it.
fn telling(alloc: Global, work: &Work, answer: &Answer) -> Result<Told, NoMemory>
    ensures { IfOk result (λ told. told ≡ record { work = work.now; answer = answer.now }) }
{
    Ok(Told {
        work: work.copy(alloc)?,
        answer: answer.copy(alloc)?,
    })
}

/// Keeps a work and the answer to it.
fn keep(alloc: Global, told: &mut Vec<Told>, work: &Work, answer: &Answer) -> Result<(), NoMemory>
    ensures kept { OnOk result (told.new.items
        ≡ told.old.items ++ record { work = work.now; answer = answer.now } ∷ []) }
    ensures stays { OnErr result (told.new.items ≡ told.old.items) }
{
    let telling = telling(alloc, work, answer)?;
    told.push(telling)?;
    Ok(())
}

impl<R: Rotator> Rotator for TellingRotator<R> {
    ghost replies = { R.replies };

    ghost faults = { λ rotator. R.faults rotator.asked };

    ghost told = { λ rotator. Some rotator.told.items };

    fn ask(&mut self, work: &Work) -> Asked {
        match self.asked.ask(work) {
            Asked::Answered(answer) => match keep(self.alloc, &mut self.told, work, &answer) {
                Ok(()) => Asked::Answered(answer),
                Err(NoMemory) => Asked::Memory,
            },
            Asked::Memory => Asked::Memory,
        }
    }

    ghost may_fail = { R.may_fail };
}
