//! The forms of DeleteSecret (AWS Secrets Manager API Reference, DeleteSecret).
ghost use Rattle.std.specs.Prelude.{◌≡◌};
ghost use Rattle.sm_forms.specs.DeleteSecret.{is_window, window_form, is_forced_with_window, delete_forms};

use crate::members::{first_refusal, form_unless};
use sm_base::limits::{LONGEST_WINDOW, SHORTEST_WINDOW};
use sm_base::spelled::is_secret_id;
use sm_model::{DeleteSecret, Why};

/// The first form or joint test that fails.
pub fn delete_forms(delete: &DeleteSecret) -> Option<Why>
    ensures { result ≡ delete_forms delete.now }
{
    first_refusal!(
        window_form(delete.recovery_window_in_days),
        form_unless(is_secret_id(delete.secret_id.as_bytes()), "SecretId"),
        form_unless(!is_forced_with_window(delete), "ForceDeleteWithoutRecovery"),
    )
}

/// Whether a window has 7 to 30 days.
fn is_window(days: i64) -> bool
    ensures { result ≡ is_window days }
{
    i64::from(SHORTEST_WINDOW) <= days && days <= i64::from(LONGEST_WINDOW)
}

/// The form of the window.
fn window_form(window: Option<i64>) -> Option<Why>
    ensures { result ≡ window_form window }
{
    match window {
        Some(days) => form_unless(is_window(days), "RecoveryWindowInDays"),
        None => None,
    }
}

/// Whether a window is there, and the deletion is forced.
fn is_forced_with_window(delete: &DeleteSecret) -> bool
    ensures { result ≡ is_forced_with_window delete.now }
{
    delete.recovery_window_in_days.is_some() && delete.force_delete_without_recovery
}
