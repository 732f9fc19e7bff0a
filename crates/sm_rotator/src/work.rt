//! The work of a rotator.
ghost use Rattle.std.specs.Prelude.{◌≡◌, is_some};
ghost use Rattle.sm_rotator.specs.Steps.{needs_current, needs_pending};

use sm_model::{Arn, At, Copied, NoMemory, Value};
use std::alloc::Global;

/// One step of the rotation of a secret: AWS Secrets Manager User Guide, "Lambda rotation functions". createSecret and
/// setSecret have the current value, and each step but createSecret has the pending one.
#[derive(Drop)]
pub struct Work {
    pub arn: Arn,
    pub at: At,
    /// The serial of the secret.
    pub secret: u64,
    /// The serial of the version that is rotated to.
    pub version: u64,
    pub current: Option<Value>,
    pub pending: Option<Value>,
    ghost current_there: { is_some current ≡ needs_current at.stage },
    ghost pending_there: { is_some pending ≡ needs_pending at.stage },
}

impl Copied for Work {
    fn copy(&self, alloc: Global) -> Result<Work, NoMemory> {
        Ok(Work {
            arn: self.arn.copy(alloc)?,
            at: self.at.copy(alloc)?,
            secret: self.secret,
            version: self.version,
            current: self.current.copy(alloc)?,
            pending: self.pending.copy(alloc)?,
        })
    }
}
