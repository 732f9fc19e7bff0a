//! The form of a request that names a secret and nothing else (AWS Secrets Manager API Reference, DescribeSecret).
ghost use Rattle.std.specs.Prelude.{◌≡◌};
ghost use Rattle.sm_forms.specs.OfSecret.{of_secret_forms};

use crate::members::form_unless;
use sm_base::spelled::is_secret_id;
use sm_model::{OfSecret, Why};

/// The form of the SecretId.
pub fn of_secret_forms(asked: &OfSecret) -> Option<Why>
    ensures { result ≡ of_secret_forms asked.now }
{
    form_unless(is_secret_id(asked.secret_id.as_bytes()), "SecretId")
}
