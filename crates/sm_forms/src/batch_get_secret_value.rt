//! The forms of BatchGetSecretValue (AWS Secrets Manager API Reference, BatchGetSecretValue).
ghost use Rattle.std.specs.Prelude.{◌≡◌, codes};
ghost use Rattle.sm_forms.specs.Members.{form_unless};
ghost use Rattle.sm_forms.specs.BatchGetSecretValue.{are_ids, has_ids_or_filters, has_page_of_ids, batch_joint, batch_forms};
ghost use Rattle.sm_model.specs.Bounds.{fits};

use crate::members::{first_refusal, form_unless};
use crate::paging::{filters_form, max_form, next_form};
use sm_base::limits::BATCH_LIMIT;
use sm_listing::SECRETS;
use sm_model::{BatchGetSecretValue, List, Text, Why};

/// The first form or joint test that fails.
pub fn batch_forms(batch: &BatchGetSecretValue) -> Option<Why>
    ensures { result ≡ batch_forms batch.now }
{
    first_refusal!(
        filters_form(&batch.filters),
        max_form(BATCH_LIMIT, batch.max_results),
        next_form(SECRETS, &batch.next_token),
        ids_form(&batch.secret_id_list),
        batch_joint(batch),
    )
}

/// The form of SecretIdList.
fn ids_form(ids: &Option<List<Text>>) -> Option<Why>
    ensures { result ≡ form_unless (fits are_ids ids.now) (codes "SecretIdList") }
{
    match ids {
        Some(ids) => form_unless(
            1 <= ids.len() && ids.len() <= BATCH_LIMIT as usize,
            "SecretIdList",
        ),
        None => None,
    }
}

/// That SecretIds or filters are given and not both, and then that no page is asked of SecretIds.
fn batch_joint(batch: &BatchGetSecretValue) -> Option<Why>
    ensures { result ≡ batch_joint batch.now }
{
    first_refusal!(
        form_unless(has_ids_or_filters(batch), "SecretIdList"),
        form_unless(!has_page_of_ids(batch), "MaxResults"),
    )
}

/// Whether SecretIds or filters are given, and not both.
fn has_ids_or_filters(batch: &BatchGetSecretValue) -> bool
    ensures { result ≡ has_ids_or_filters batch.now.secret_id_list batch.now.filters }
{
    let (ids, filters) = (batch.secret_id_list.is_some(), batch.filters.is_some());
    (ids || filters) && !(ids && filters)
}

/// Whether a page is asked of SecretIds.
fn has_page_of_ids(batch: &BatchGetSecretValue) -> bool
    ensures { result ≡ has_page_of_ids batch.now }
{
    batch.secret_id_list.is_some() && (batch.max_results.is_some() || batch.next_token.is_some())
}
