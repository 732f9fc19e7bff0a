//! An upstream in memory that answers from a list.
ghost use Rattle.std.specs.Prelude.{◌≡◌, ◌≤◌, ◌<◌, ◌∷◌, ◌++◌, [], length, is_some, IsTrue, IfOk, OnErr, OnOk, Some, None};
ghost use Rattle.sm_base.specs.Faults.{Rose};
ghost use Rattle.sm_base.specs.Outcomes.{OrMemory};
ghost use Rattle.sm_io.specs.Calls.{no_calls};
ghost use Rattle.sm_agent.specs.Upstreams.{is_status, IfGot, OnFailed, StaysUnlessFailed, told_after, answer_in};
ghost use Rattle.sm_agent.specs.Scripts.{AreReplies, first_answer, script_answer, with_told, after_ask};

use crate::answer::Answer;
use crate::question::Question;
use crate::upstream::{Told, Upped, Upstream};
use sm_base::{Bytes, Copied, Fails, List, NoMemory};
use sm_io::Calls;
use std::alloc::Global;
use std::marker::Model;

/// An upstream that gives the replies of a list one after the other, whatever it is asked, and fails at the calls that
/// are told to fail and where no reply is left.
#[derive(Drop)]
pub struct ScriptUpstream {
    alloc: Global,
    replies: Vec<(u16, Bytes)>,
    calls: Calls,
    told: Vec<Told>,
}

impl Model for ScriptUpstream {
    ghost use Rattle.sm_agent.specs.Scripts.{ScriptState, AreReplies};

    ghost Value = { ScriptState };

    ghost view = { λ u. record { replies = u.replies.items; calls = u.calls; told = u.told.items } };

    ghost invariant = { λ u. AreReplies u.replies.items };
}

impl ScriptUpstream {
    /// One that was not asked yet. It takes no memory.
    pub fn new(alloc: Global, replies: List<(u16, Bytes)>, fails: Fails) -> ScriptUpstream
        requires { AreReplies replies }
        ensures state { result ≡ record { replies = replies; calls = no_calls fails; told = [] } }
        ensures told { ⟦<ScriptUpstream as Upstream>⟧.told result ≡ Some [] }
        ensures faults { ⟦<ScriptUpstream as Upstream>⟧.faults result ≡ 0 }
    {
        ScriptUpstream {
            alloc,
            replies: replies.into_vec(),
            calls: Calls::new(fails),
            told: Vec::new(alloc),
        }
    }

    /// The questions that it was asked, each with its answer, in order.
    pub fn told(&self) -> &[Told]
        ensures { result.now ≡ self.now.told }
    {
        self.told.as_slice()
    }

    /// A copy of the answer that comes next; none where it fails next.
    fn next_answer(&self) -> Result<Option<Answer>, NoMemory>
        ensures { IfOk result (λ answer. answer ≡ script_answer self.now) }
    {
        if self.calls.next_fails() {
            return Ok(None);
        }
        first_answer(self.alloc, self.replies.as_slice())
    }

    /// Keeps a question with the answer that comes next, and says whether there is one.
    fn tell_next(&mut self, question: &Question) -> Result<bool, NoMemory>
        ensures answer { IfOk result (λ answers. answers ≡ is_some (script_answer self.old)) }
        ensures ok { OnOk result (self.new ≡ with_told self.old question.now (script_answer self.old)) }
        ensures err { OnErr result (self.new ≡ self.old) }
    {
        let answer = self.next_answer()?;
        let answers = answer.is_some();
        tell(self.alloc, &mut self.told, question, answer)?;
        Ok(answers)
    }
}

/// A copy of the first of some replies.
fn first_answer(alloc: Global, replies: &[(u16, Bytes)]) -> Result<Option<Answer>, NoMemory>
    ensures { IfOk result (λ answer. answer ≡ first_answer replies.now) }
{
    match replies {
        [(status, body), ..] => Ok(Some(Answer {
            status: *status,
            body: body.copy(alloc)?,
        })),
        [] => Ok(None),
    }
}

/// Keeps a question with its answer.
fn tell(
    alloc: Global,
    told: &mut Vec<Told>,
    question: &Question,
    answer: Option<Answer>,
) -> Result<(), NoMemory>
    ensures ok { OnOk result (told.new.items
        ≡ told.old.items ++ record { question = question.now; answer = answer } ∷ []) }
    ensures err { OnErr result (told.new.items ≡ told.old.items) }
{
    let question = question.copy(alloc)?;
    told.push(Told { question, answer })?;
    Ok(())
}

impl Upstream for ScriptUpstream {
    ghost told = { λ u. Some u.told };

    ghost faults = { λ u. u.calls.faults };

    fn ask(&mut self, question: &Question) -> Upped
        ensures status { IfGot result (λ status body. IsTrue (is_status status)) }
        ensures failed { OnFailed result (Rose self.old.calls.faults self.new.calls.faults) }
        ensures later { self.old.calls.faults ≤ self.new.calls.faults }
        ensures no_other { StaysUnlessFailed result self.old.calls.faults self.new.calls.faults }
        ensures told { Some self.new.told ≡ told_after question.now result (Some self.old.told) }

        // Exactly what it answers, and what it leaves.
        ensures answer { OrMemory (answer_in result) (script_answer self.old) }
        ensures after { self.new ≡ after_ask self.old question.now result }
    {
        match self.tell_next(question) {
            Ok(true) => {
                self.calls.count_call();
                let (status, body) = self.replies.remove(0);
                Upped::Got(status, body)
            }
            Ok(false) => {
                self.calls.count_fault();
                Upped::Failed
            }
            Err(NoMemory) => {
                self.calls.count_call();
                Upped::Memory
            }
        }
    }
}
