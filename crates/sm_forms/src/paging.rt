//! The forms of the members that ask for a page (AWS Secrets Manager API Reference, ListSecrets, ListSecretVersionIds
//! and BatchGetSecretValue).
ghost use Rattle.std.specs.Prelude.{◌≡◌, ◌<◌};
ghost use Rattle.std.specs.List.{list_all};
ghost use Rattle.sm_forms.specs.Paging.{is_count, max_form, are_filters, filters_form, is_page_token, next_form};
ghost use Rattle.sm_listing.specs.Filters.{is_filter};

use crate::members::form_unless;
use sm_base::limits::FILTERS_LIMIT;
use sm_listing::{is_filter, serial_of};
use sm_model::{Filter, List, Text, Why};

/// Whether a number is from 1 to the most that may be asked for.
pub fn is_count(most: u32, count: i64) -> bool
    ensures { result ≡ is_count most count }
{
    1 <= count && count <= i64::from(most)
}

/// The form of MaxResults.
pub fn max_form(most: u32, max: Option<i64>) -> Option<Why>
    ensures { result ≡ max_form most max }
{
    match max {
        Some(count) => form_unless(is_count(most, count), "MaxResults"),
        None => None,
    }
}

/// Whether each of the filters is in its form.
fn each_is_filter(filters: &[Filter]) -> bool
    ensures { result ≡ list_all is_filter filters.now }
{
    filters.iter().all(|filter| is_filter(filter))
}

/// Whether there are at most ten filters, each in its form.
fn are_filters(filters: &[Filter]) -> bool
    ensures { result ≡ are_filters filters.now }
{
    filters.len() <= FILTERS_LIMIT && each_is_filter(filters)
}

/// The form of Filters.
pub fn filters_form(filters: &Option<List<Filter>>) -> Option<Why>
    ensures { result ≡ filters_form filters.now }
{
    match filters {
        Some(filters) => form_unless(are_filters(filters.as_slice()), "Filters"),
        None => None,
    }
}

/// Whether a text is a NextToken of what the letter stands for.
fn is_page_token(letter: char, token: &Text) -> bool
    requires { letter < 128 }
    ensures { result ≡ is_page_token letter token.now }
{
    serial_of(letter, token).is_some()
}

/// The refusal of a NextToken that is not spelled as one.
pub fn next_form(letter: char, token: &Option<Text>) -> Option<Why>
    requires { letter < 128 }
    ensures { result ≡ next_form letter token.now }
{
    match token {
        Some(token) if !is_page_token(letter, token) => Some(Why::BadToken),
        _ => None,
    }
}
