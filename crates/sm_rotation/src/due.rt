//! Due rotations (AWS Secrets Manager User Guide, "Rotation schedules").
ghost use Rattle.std.specs.Prelude.{◌≡◌, ◌≤◌, IsTrue};
ghost use Rattle.sm_base.specs.declared.moment.TheConstants.{LAST_READING};
ghost use Rattle.sm_model.specs.Due.{is_due_for_when};
ghost use Rattle.sm_rotation.specs.Begin.{begin_answer};
ghost use Rattle.sm_rotation.specs.declared.starting.Began.TheVariants.{Ok as Begun};

use sm_model::{SecretRow, Token};
use sm_versions::versions::has_version;
use sm_versions::{When, is_due_for_some};

/// Whether each thing that is asked of a due rotation holds.
fn has_each(row: &SecretRow, token: &Token, when: When) -> bool
    ensures { result ≡ is_due_for_when row.now when token.now }
{
    is_due_for_some(row, when) && !has_version(&row.versions, token)
}

/// Whether a rotation of the secret is due then, and may begin with the token. It takes no memory.
#[tactic(auto, using(crate::proofs::BeginLemmas::due_begins))]
pub fn is_due(row: &SecretRow, token: &Token, when: When) -> bool
    requires { when.moment.0 ≤ LAST_READING }
    ensures due { result ≡ is_due_for_when row.now when token.now }
    ensures begins { IsTrue result → begin_answer row.now token.now when ≡ Begun }
{
    has_each(row, token, when)
}
