//! Filters of secrets.
ghost use Rattle.std.specs.Prelude.{◌≡◌, nat_eq, min, ◌+◌, ◌^◌, ◌-◌, ◌≤◌, ◌<◌, option_map, map, take, drop, length, IfSome};
ghost use Rattle.std.specs.List.{list_all, list_any, starts_with};
ghost use Rattle.sm_base.specs.Texts.{has_at_most};
ghost use Rattle.sm_listing.specs.Filters.{key_of, is_filter, first_fault, texts_of, some_begins, value_holds, filter_holds};
ghost use Rattle.sm_listing.specs.declared.beginnings.TagPart.TheVariants.{Key, Value};
ghost use Rattle.sm_listing.specs.Beginnings.{text_of, values_of, IsSought, IsSoughtOf, AreMarks};

use crate::beginnings::{self, Marks, Sought, TagPart, place_at};
use sm_base::Text;
use sm_base::limits::{FILTER_VALUE_LIMIT, FILTER_VALUES_LIMIT};
use sm_base::text::has_at_most;
use sm_model::{Filter, SecretRow, Tag};

/// What a filter's key names.
#[derive(Clone, Copy)]
pub enum FilterKey {
    Name,
    Description,
    TagKey,
    TagValue,
}

/// What the text names as a filter's key.
#[tactic(auto, unfolding(crate::specs::Filters::key_of, sm_base::specs::Texts::same_text))]
fn key_of(text: &Text) -> Option<FilterKey>
    ensures { result ≡ key_of text.now }
{
    match text.as_str() {
        "name" => Some(FilterKey::Name),
        "description" => Some(FilterKey::Description),
        "tag-key" => Some(FilterKey::TagKey),
        "tag-value" => Some(FilterKey::TagValue),
        _ => None,
    }
}

/// Whether no value is too long.
fn are_values(values: &[Text]) -> bool
    ensures { result ≡ list_all (has_at_most FILTER_VALUE_LIMIT) values.now }
{
    values
        .iter()
        .all(|value| has_at_most(value, FILTER_VALUE_LIMIT))
}

/// Whether a filter is in its form. It takes no memory.
pub fn is_filter(filter: &Filter) -> bool
    ensures { result ≡ is_filter filter.now }
{
    let values = filter.values.as_slice();
    key_of(&filter.key).is_some()
        && !values.is_empty()
        && values.len() <= FILTER_VALUES_LIMIT
        && are_values(values)
}

/// The place of the first filter that is not in its form.
fn first_fault(filters: &[Filter]) -> Option<usize>
    ensures { option_map (λ place. place + 1) result ≡ first_fault 1 filters.now }
{
    for (place, filter) in filters.iter().enumerate() {
        if !is_filter(filter) {
            return Some(place);
        }
    }
    None
}

/// The number of the first filter that is not in its form, counted from 1, or the greatest number of its type.
pub(crate) fn bad_filter(filters: &[Filter]) -> Option<u32>
    ensures { result ≡ option_map (λ number. min number (2 ^ 32 - 1)) (first_fault 1 filters.now) }
{
    match first_fault(filters) {
        Some(place) => Some(u32::try_from(place).unwrap_or(u32::MAX).saturating_add(1)),
        None => None,
    }
}

/// Whether a text begins with these bytes.
fn begins(text: &Text, beginning: &[u8]) -> bool
    ensures { result ≡ starts_with nat_eq text.now beginning.now }
{
    text.as_bytes().starts_with(beginning)
}

/// Whether the key of some tag begins with these bytes.
fn some_key_begins(tags: &[Tag], beginning: &[u8]) -> bool
    ensures { result ≡ list_any (λ tag. starts_with nat_eq tag.key beginning.now) tags.now }
{
    tags.iter().any(|tag| begins(&tag.key, beginning))
}

/// Whether the value of some tag begins with these bytes.
fn some_value_begins(tags: &[Tag], beginning: &[u8]) -> bool
    ensures { result ≡ list_any (λ tag. starts_with nat_eq tag.value beginning.now) tags.now }
{
    tags.iter().any(|tag| begins(&tag.value, beginning))
}

/// Whether some text of a row that the key names begins with these bytes.
fn some_begins(row: &SecretRow, key: FilterKey, beginning: &[u8]) -> bool
    ensures { result ≡ some_begins (texts_of key row.now) beginning.now }
{
    match key {
        FilterKey::Name => begins(row.name.as_text(), beginning),
        FilterKey::Description => match &row.description {
            Some(description) => begins(description, beginning),
            None => false,
        },
        FilterKey::TagKey => some_key_begins(row.tags.as_slice(), beginning),
        FilterKey::TagValue => some_value_begins(row.tags.as_slice(), beginning),
    }
}

/// Whether a value of a filter holds.
fn value_holds(row: &SecretRow, key: FilterKey, value: &Text) -> bool
    ensures { result ≡ value_holds (texts_of key row.now) value.now }
{
    match value.as_bytes() {
        [b'!', beginning @ ..] => !some_begins(row, key, beginning),
        beginning => some_begins(row, key, beginning),
    }
}

/// Whether some of the values holds.
fn some_value_holds(row: &SecretRow, key: FilterKey, values: &[Text]) -> bool
    ensures { result ≡ list_any (value_holds (texts_of key row.now)) values.now }
{
    values.iter().any(|value| value_holds(row, key, value))
}

/// Whether a filter holds.
fn filter_holds(row: &SecretRow, filter: &Filter) -> bool
    ensures { result ≡ filter_holds row.now filter.now }
{
    match key_of(&filter.key) {
        Some(key) => some_value_holds(row, key, filter.values.as_slice()),
        None => false,
    }
}

/// Whether a filter holds whose values stand among those that are sought, from a place on.
fn sought_holds(
    row: &SecretRow,
    filter: &Filter,
    sought: &Sought,
    first: usize,
    keys: &mut Option<Marks>,
    values: &mut Option<Marks>,
) -> bool
    requires places { first + length filter.now.values ≤ length sought.now.values }
    requires values { take (length filter.now.values) (drop first sought.now.values) ≡ filter.now.values }
    requires sought { IsSought sought.now }
    requires known_keys { IfSome keys.old (AreMarks (map (text_of Key) row.now.tags) sought.now.values) }
    requires known_values { IfSome values.old (AreMarks (map (text_of Value) row.now.tags) sought.now.values) }
    ensures holds { result ≡ filter_holds row.now filter.now }
    ensures known_keys { IfSome keys.new (AreMarks (map (text_of Key) row.now.tags) sought.now.values) }
    ensures known_values { IfSome values.new (AreMarks (map (text_of Value) row.now.tags) sought.now.values) }
{
    let count = filter.values.len();
    let tags = row.tags.as_slice();
    match key_of(&filter.key) {
        Some(FilterKey::Name) => {
            some_value_holds(row, FilterKey::Name, filter.values.as_slice())
        }
        Some(FilterKey::Description) => {
            some_value_holds(row, FilterKey::Description, filter.values.as_slice())
        }
        Some(FilterKey::TagKey) => {
            beginnings::some_value_holds(sought, first, count, tags, TagPart::Key, keys)
        }
        Some(FilterKey::TagValue) => {
            beginnings::some_value_holds(sought, first, count, tags, TagPart::Value, values)
        }
        None => false,
    }
}

/// Whether every filter holds, with what is known of the texts of the tags.
#[tactic(auto, using(crate::proofs::ValueLemmas::values_end, crate::proofs::ValueLemmas::values_at))]
fn all_sought_hold(
    row: &SecretRow,
    filters: &[Filter],
    sought: &Sought,
    keys: &mut Option<Marks>,
    values: &mut Option<Marks>,
) -> bool
    requires sought { IsSoughtOf filters.now sought.now }
    requires known_keys { IfSome keys.old (AreMarks (map (text_of Key) row.now.tags) sought.now.values) }
    requires known_values { IfSome values.old (AreMarks (map (text_of Value) row.now.tags) sought.now.values) }
    ensures { result ≡ list_all (filter_holds row.now) filters.now }
{
    let mut first = 0;
    for filter in filters {
        if !sought_holds(row, filter, sought, first, keys, values) {
            return false;
        }
        first = place_at(sought, first, filter.values.len());
    }
    true
}

/// Whether every filter holds, one value after the other.
fn all_hold(row: &SecretRow, filters: &[Filter]) -> bool
    ensures { result ≡ list_all (filter_holds row.now) filters.now }
{
    filters.iter().all(|filter| filter_holds(row, filter))
}

/// Whether every filter holds, with what the values that are sought have alike.
fn all_hold_by(row: &SecretRow, filters: &[Filter], sought: &Sought) -> bool
    requires { IsSoughtOf filters.now sought.now }
    ensures { result ≡ list_all (filter_holds row.now) filters.now }
{
    let mut keys = None;
    let mut values = None;
    all_sought_hold(row, filters, sought, &mut keys, &mut values)
}

/// Whether every filter holds.
pub(crate) fn pass(row: &SecretRow, filters: &[Filter], sought: &Option<Sought>) -> bool
    requires { IfSome sought.now (IsSoughtOf filters.now) }
    ensures { result ≡ list_all (filter_holds row.now) filters.now }
{
    match sought {
        Some(sought) => all_hold_by(row, filters, sought),
        None => all_hold(row, filters),
    }
}
