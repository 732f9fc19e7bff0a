//! The forms of ListSecrets (AWS Secrets Manager API Reference, ListSecrets).
ghost use Rattle.std.specs.Prelude.{◌≡◌, codes};
ghost use Rattle.sm_forms.specs.Members.{form_of};
ghost use Rattle.sm_forms.specs.ListSecrets.{is_order, list_forms};

use crate::members::{first_refusal, form_unless};
use crate::paging::{filters_form, max_form, next_form};
use sm_base::limits::PAGE_LIMIT;
use sm_listing::SECRETS;
use sm_model::{ListSecrets, Text, Why};

/// The first form that fails.
pub fn list_forms(list: &ListSecrets) -> Option<Why>
    ensures { result ≡ list_forms list.now }
{
    first_refusal!(
        filters_form(&list.filters),
        max_form(PAGE_LIMIT, list.max_results),
        next_form(SECRETS, &list.next_token),
        order_form(&list.sort_order),
    )
}

/// The form of SortOrder.
fn order_form(order: &Option<Text>) -> Option<Why>
    ensures { result ≡ form_of is_order (codes "SortOrder") order.now }
{
    match order {
        Some(order) => form_unless(is_order(order), "SortOrder"),
        None => None,
    }
}

/// Whether a text is the order of creation, or the reverse.
#[tactic(auto, unfolding(sm_base::specs::Texts::same_text))]
fn is_order(order: &Text) -> bool
    ensures { result ≡ is_order order.now }
{
    matches!(order.as_str(), "asc" | "desc")
}
