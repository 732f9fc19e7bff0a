//! What a reader asks for.
ghost use Rattle.std.specs.Prelude.{◌≡◌, IfOk, fold};
ghost use Rattle.std.specs.Hash as fed;

use sm_base::{Copied, NoMemory, Text};
use std::alloc::Global;
use std::hash::{Hash, Hasher};

/// Which version of which secret is asked for: AWS Secrets Manager API Reference, GetSecretValue.
#[derive(Drop)]
pub struct Question {
    pub secret_id: Text,
    pub version_id: Option<Text>,
    pub version_stage: Option<Text>,
}

impl PartialEq for Question {
    ghost use Rattle.std.specs.Cmp.{partial_equiv_from_equiv};
    ghost use Rattle.sm_agent.specs.Questions.{same_question, question_equiv};

    ghost eq = { same_question };

    ghost laws = { partial_equiv_from_equiv question_equiv };

    fn eq(&self, other: &Question) -> bool {
        self.secret_id == other.secret_id
            && self.version_id == other.version_id
            && self.version_stage == other.version_stage
    }
}

impl Eq for Question {
    ghost use Rattle.sm_agent.specs.Questions.{question_equiv};

    ghost laws = { question_equiv };
}

impl Hash for Question {
    ghost use Rattle.sm_agent.specs.Questions.{hash_writes, same_questions_hash_alike};

    ghost hash_input = { hash_writes };

    ghost respects_eq = { same_questions_hash_alike };

    fn hash<H: Hasher>(&self, state: &mut H) {
        self.secret_id.as_str().hash(state);
        hash_text(&self.version_id, state);
        hash_text(&self.version_stage, state);
    }
}

/// Feeds a text that may be absent to a hasher, as an `Option<&str>` is fed.
fn hash_text<H: Hasher>(text: &Option<Text>, state: &mut H)
    ensures { state.new ≡ fold H.write state.old (fed.option fed.str text.now) }
{
    match text {
        Some(text) => {
            state.write_isize(1);
            text.as_str().hash(state);
        }
        None => state.write_isize(0),
    }
}

impl Copied for Question {
    fn copy(&self, alloc: Global) -> Result<Question, NoMemory> {
        Ok(Question {
            secret_id: self.secret_id.copy(alloc)?,
            version_id: self.version_id.copy(alloc)?,
            version_stage: self.version_stage.copy(alloc)?,
        })
    }
}
