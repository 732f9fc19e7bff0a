//! The forms of UpdateSecretVersionStage (AWS Secrets Manager API Reference, UpdateSecretVersionStage).
ghost use Rattle.std.specs.Prelude.{◌≡◌, ◌||◌, is_some};
ghost use Rattle.sm_forms.specs.UpdateSecretVersionStage.{label_and_version, move_forms};

use crate::members::{first_refusal, form_unless, token_form};
use sm_base::spelled::{is_label, is_secret_id};
use sm_model::{UpdateSecretVersionStage, Why};

/// The first form or joint test that fails.
pub fn move_forms(update: &UpdateSecretVersionStage) -> Option<Why>
    ensures { result ≡ move_forms update.now }
{
    first_refusal!(
        token_form(&update.move_to_version_id, "MoveToVersionId"),
        token_form(&update.remove_from_version_id, "RemoveFromVersionId"),
        form_unless(is_secret_id(update.secret_id.as_bytes()), "SecretId"),
        label_and_version(update),
    )
}

/// The form of the label, and then that a target or a source is there.
fn label_and_version(update: &UpdateSecretVersionStage) -> Option<Why>
    ensures { result ≡ label_and_version update.now }
{
    first_refusal!(
        form_unless(is_label(update.version_stage.as_bytes()), "VersionStage"),
        form_unless(has_version(update), "MoveToVersionId"),
    )
}

/// Whether a target or a source is there.
fn has_version(update: &UpdateSecretVersionStage) -> bool
    ensures { result ≡ (is_some update.now.move_to_version_id || is_some update.now.remove_from_version_id) }
{
    update.move_to_version_id.is_some() || update.remove_from_version_id.is_some()
}
