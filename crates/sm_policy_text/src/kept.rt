//! Policies that were read once and are kept with their texts.
ghost use Rattle.std.specs.Prelude.{◌≡◌, IfOk, option_copied};
ghost use Rattle.std.specs.Result.{result_ok};
ghost use Rattle.sm_policy_text.specs.Documents.{policy_of};

use crate::document::PolicyRefused;
use crate::policy::Policy;
use sm_base::{Copied, NoMemory, Text};
use std::alloc::Global;
use std::marker::Model;
use std::sync::Arc;

/// A text, and the policy that it is.
#[derive(Drop)]
struct TextRead {
    text: Text,
    policy: Option<Policy>,
}

/// The text of a policy with the policy that was read of it. Contracts see its bytes. A text that is no policy is kept
/// as it is. A copy shares the text and the policy, so that a text is read once for all its copies.
pub struct KeptPolicy {
    kept: Arc<TextRead>,
}

/// What is kept is looked at here alone: who lets a policy go makes one call.
impl Drop for KeptPolicy {
    fn drop(self) {
        let KeptPolicy { kept } = self;
        drop(kept);
    }
}

impl Model for KeptPolicy {
    ghost use Rattle.std.specs.Prelude.{◌≡◌, List, ℕ};
    ghost use Rattle.std.specs.Result.{result_ok};
    ghost use Rattle.std.specs.Arc.{arc_value};
    ghost use Rattle.sm_policy_text.specs.Documents.{policy_of};

    ghost Value = { List ℕ };

    ghost view = { λ k. (arc_value k.kept).text };

    ghost invariant = { λ k. (arc_value k.kept).policy ≡ result_ok (policy_of (arc_value k.kept).text) };
}

/// The policy that a text is, or none.
fn read_policy(alloc: Global, text: &[u8]) -> Result<Option<Policy>, NoMemory>
    ensures { IfOk result (λ policy. policy ≡ result_ok (policy_of text.now)) }
{
    match Policy::read(alloc, text) {
        Ok(policy) => Ok(Some(policy)),
        Err(PolicyRefused::Malformed(_, _)) => Ok(None),
        Err(PolicyRefused::Memory) => Err(NoMemory),
    }
}

impl KeptPolicy {
    /// Reads the text and keeps it, whether it is a policy or not.
    pub fn of(alloc: Global, text: Text) -> Result<KeptPolicy, NoMemory>
        ensures { IfOk result (λ kept. kept ≡ text) }
    {
        let policy = read_policy(alloc, text.as_bytes())?;
        // (a copy of a text shares its bytes with its own copies)
        let text = text.copy(alloc)?;
        let kept = Arc::new(alloc, TextRead { text, policy })?;
        Ok(KeptPolicy { kept })
    }

    /// The text.
    pub fn text(&self) -> &Text
        ensures { result.now ≡ self.now }
    {
        &self.kept.text
    }

    /// The policy that the text is, if it is one. It was read before: this takes no memory.
    pub fn policy(&self) -> Option<&Policy>
        ensures { option_copied result ≡ result_ok (policy_of self.now) }
    {
        self.kept.policy.as_ref()
    }
}

impl Copied for KeptPolicy {
    fn copy(&self, _alloc: Global) -> Result<KeptPolicy, NoMemory> {
        let kept = Arc::try_clone(&self.kept)?;
        Ok(KeptPolicy { kept })
    }
}
