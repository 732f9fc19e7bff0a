//! The forms of ListSecretVersionIds (AWS Secrets Manager API Reference, ListSecretVersionIds).
ghost use Rattle.std.specs.Prelude.{◌≡◌};
ghost use Rattle.sm_forms.specs.ListSecretVersionIds.{list_versions_forms};

use crate::members::{first_refusal, form_unless};
use crate::paging::{max_form, next_form};
use sm_base::limits::PAGE_LIMIT;
use sm_base::spelled::is_secret_id;
use sm_listing::VERSIONS;
use sm_model::{ListSecretVersionIds, Why};

/// The first form that fails.
pub fn list_versions_forms(list: &ListSecretVersionIds) -> Option<Why>
    ensures { result ≡ list_versions_forms list.now }
{
    first_refusal!(
        max_form(PAGE_LIMIT, list.max_results),
        next_form(VERSIONS, &list.next_token),
        form_unless(is_secret_id(list.secret_id.as_bytes()), "SecretId"),
    )
}
