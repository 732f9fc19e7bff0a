//! Whom a reader asks.
ghost use Rattle.std.specs.Prelude.{◌≡◌, ◌≤◌, ℕ, List, Option, IsTrue};
ghost use Rattle.sm_base.specs.Faults.{Rose};
ghost use Rattle.sm_agent.specs.declared.upstream.Told.{Told};
ghost use Rattle.sm_agent.specs.Upstreams.{is_status, IfGot, OnFailed, StaysUnlessFailed, told_after};

use crate::answer::Answer;
use crate::question::Question;
use sm_base::Bytes;

/// What became of a question: an answer, by its status and its body, a fault, or out of memory.
#[derive(Drop)]
pub enum Upped {
    Got(u16, Bytes),
    Failed,
    Memory,
}

/// A question, and the answer that was given to it; none where there was a fault.
#[derive(Drop)]
pub struct Told {
    pub question: Question,
    pub answer: Option<Answer>,
}

/// Who answers questions.
pub trait Upstream {
    /// The questions that were asked, each with its answer, where they are told.
    ghost told: { Self → Option (List Told) };

    /// How often it has failed. At 2^64 - 1 the count stands.
    ghost faults: { Self → ℕ };

    /// Asks once. The count of faults rises where it answers `Failed`, and only there.
    fn ask(&mut self, question: &Question) -> Upped
        ensures status { IfGot result (λ status body. IsTrue (is_status status)) }
        ensures failed { OnFailed result (Rose (faults self.old) (faults self.new)) }
        ensures later { faults self.old ≤ faults self.new }
        ensures no_other { StaysUnlessFailed result (faults self.old) (faults self.new) }
        ensures told { told self.new ≡ told_after question.now result (told self.old) };
}
