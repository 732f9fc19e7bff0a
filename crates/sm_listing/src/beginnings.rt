//! How texts begin. Values of filters that begin alike cost no more than one of them: where a text parts from one value
//! tells whether it begins as another does, unless the other parts from the first at the same byte and goes on alike.
ghost use Rattle.std.specs.Prelude.{◌≡◌, ◌+◌, ◌≤◌, ◌<◌, IfOk, IfSome, OnOk, [], length, ◌++◌, map, take, drop, slice_index_or};
ghost use Rattle.std.specs.List.{list_any};
ghost use Rattle.sm_listing.specs.Beginnings.{alike, next_of, parting, beginning_of, text_of, values_of, partings_with, partings_among, IsSought, IsSoughtOf, beginning_at, ends_within, goes_along, marked, AreMarks, holds_by};
ghost use Rattle.sm_listing.specs.Filters.{some_begins, value_holds};

use sm_base::limits::{FILTER_VALUES_LIMIT, FILTERS_LIMIT};
use sm_base::{Copied, List, NoMemory, Text};
use sm_model::{Filter, Tag};
use std::alloc::Global;

/// So many bytes are compared at once.
const BLOCK: usize = 64;

/// So few values are looked for one by one.
const FEW: usize = 4;

/// The most values that filters have.
const MOST_VALUES: usize = FILTERS_LIMIT * FILTER_VALUES_LIMIT;

/// At each place whether some text begins as the value there does.
pub(crate) type Marks = [bool; MOST_VALUES];

/// The text of a tag that is looked at.
#[derive(Clone, Copy)]
pub enum TagPart {
    Key,
    Value,
}

/// How another text parts from one: with how many equal bytes both begin, and the byte with which the other goes on,
/// counted from 1, or 0 where it ends there.
#[derive(Clone, Copy)]
pub struct Parted {
    pub bytes: usize,
    pub next: usize,
}

/// Values that are looked for, and how the beginnings of any two of them part.
#[derive(Drop)]
pub struct Sought {
    pub values: List<Text>,
    pub among: List<List<Parted>>,
}

/// With how many equal blocks of bytes both begin, in bytes.
fn same_blocks(one: &[u8], other: &[u8]) -> usize
    ensures { result ≤ alike one.now other.now }
{
    let both = one.len().min(other.len());
    let mut bytes = 0;
    while BLOCK <= both - bytes && one[bytes..].starts_with(&other[bytes..bytes + BLOCK]) {
        bytes += BLOCK;
    }
    bytes
}

/// With how many equal bytes both begin, one byte after the other.
#[tactic(auto, using(crate::proofs::AlikeLemmas::alike_apart, crate::proofs::AlikeLemmas::alike_next, crate::proofs::AlikeLemmas::alike_to_end))]
fn same_bytes(one: &[u8], other: &[u8]) -> usize
    ensures { result ≡ alike one.now other.now }
{
    let both = one.len().min(other.len());
    for bytes in 0..both {
        if one[bytes] != other[bytes] {
            return bytes;
        }
    }
    both
}

/// With how many equal bytes both begin.
#[tactic(auto, using(crate::proofs::AlikeLemmas::alike_within, crate::proofs::AlikeLemmas::alike_within_other, crate::proofs::AlikeLemmas::alike_rest))]
pub(crate) fn alike(one: &[u8], other: &[u8]) -> usize
    ensures { result ≡ alike one.now other.now }
{
    let bytes = same_blocks(one, other);
    bytes + same_bytes(&one[bytes..], &other[bytes..])
}

/// The beginning that a value names.
fn beginning_of(value: &Text) -> &[u8]
    ensures { result.now ≡ beginning_of value.now }
{
    match value.as_bytes() {
        [b'!', beginning @ ..] => beginning,
        beginning => beginning,
    }
}

/// With how many equal bytes both begin, where so many are known to be equal. Most texts part at the next byte.
#[tactic(auto, using(crate::proofs::AlikeLemmas::alike_within, crate::proofs::AlikeLemmas::alike_within_other, crate::proofs::AlikeLemmas::alike_rest, crate::proofs::AlikeLemmas::alike_parts))]
fn alike_past(one: &[u8], other: &[u8], bytes: usize) -> usize
    requires { bytes ≤ alike one.now other.now }
    ensures { result ≡ alike one.now other.now }
{
    if bytes < one.len() && bytes < other.len() && one[bytes] != other[bytes] {
        return bytes;
    }
    bytes + alike(&one[bytes..], &other[bytes..])
}

/// The byte at a place, counted from 1, or 0 behind the end.
#[tactic(auto, using(crate::proofs::PartingLemmas::next_here, crate::proofs::PartingLemmas::next_end))]
fn next_of(text: &[u8], place: usize) -> usize
    ensures { result ≡ next_of text.now place }
{
    if place < text.len() {
        text[place] as usize + 1
    } else {
        0
    }
}

/// How another text parts from one, where so many bytes are known to be equal.
fn parting_past(one: &[u8], other: &[u8], bytes: usize) -> Parted
    requires { bytes ≤ alike one.now other.now }
    ensures { result ≡ parting one.now other.now }
{
    let bytes = alike_past(one, other, bytes);
    let next = next_of(other, bytes);
    Parted { bytes, next }
}

/// How another text parts from one.
fn parting(one: &[u8], other: &[u8]) -> Parted
    ensures { result ≡ parting one.now other.now }
{
    parting_past(one, other, 0)
}

/// How the beginnings that values name part from one.
fn partings_with(alloc: Global, beginning: &[u8], values: &[Text]) -> Result<List<Parted>, NoMemory>
    ensures { IfOk result (λ partings. partings ≡ partings_with beginning.now values.now) }
{
    let mut partings = Vec::with_capacity(alloc, values.len())?;
    for value in values {
        partings.push(parting(beginning, beginning_of(value)))?;
    }
    Ok(List::new(partings))
}

/// How the beginnings of any two values part.
fn partings_among(alloc: Global, values: &[Text]) -> Result<List<List<Parted>>, NoMemory>
    ensures { IfOk result (λ among. among ≡ partings_among values.now values.now) }
{
    let mut among = Vec::with_capacity(alloc, values.len())?;
    for value in values {
        among.push(partings_with(alloc, beginning_of(value), values)?)?;
    }
    Ok(List::new(among))
}

/// The text of a tag.
fn text_of(tag: &Tag, part: TagPart) -> &[u8]
    ensures { result.now ≡ text_of part tag.now }
{
    match part {
        TagPart::Key => tag.key.as_bytes(),
        TagPart::Value => tag.value.as_bytes(),
    }
}

/// The beginning that the value at a place names.
fn beginning_at(sought: &Sought, place: usize) -> &[u8]
    requires { place < length sought.now.values }
    ensures { result.now ≡ beginning_at sought.now.values place }
{
    beginning_of(&sought.values.as_slice()[place])
}

/// How the beginnings of all values part from the one of the value at a place.
#[tactic(auto, using(crate::proofs::PartingLemmas::row_at, crate::proofs::PartingLemmas::among_count))]
fn row_at(sought: &Sought, place: usize) -> &[Parted]
    requires place { place < length sought.now.values }
    requires sought { IsSought sought.now }
    ensures { result.now ≡ partings_with (beginning_at sought.now.values place) sought.now.values }
{
    sought.among.as_slice()[place].as_slice()
}

/// Whether a value ends within what the text has alike with the one from which both part.
fn ends_within(value: Parted, text: Parted) -> bool
    ensures { result ≡ ends_within value text }
{
    value.next == 0 && value.bytes <= text.bytes
}

/// Whether a value parts from the one where the text does, and goes on as it does.
fn goes_along(value: Parted, text: Parted) -> bool
    ensures { result ≡ goes_along value text }
{
    value.bytes == text.bytes && value.next == text.next && value.next != 0
}

/// Marks the places of the values as which a text begins, beside those that are marked. What is marked is not looked
/// at again: values that begin each other are then compared once, and not once for each tag.
fn mark(sought: &Sought, text: &[u8], marks: &mut [bool])
    requires sought { IsSought sought.now }
    requires room { length sought.now.values ≤ length marks.old }
    ensures { marks.new ≡ marked text.now sought.now.values marks.old }
{
    let mut row = row_at(sought, 0);
    let mut here = parting(beginning_at(sought, 0), text);
    for place in 0..sought.values.len() {
        if marks[place] {
            continue;
        }
        let there = row[place];
        if ends_within(there, here) {
            marks[place] = true;
        } else if goes_along(there, here) {
            let beginning = beginning_at(sought, place);
            here = parting_past(beginning, text, here.bytes);
            row = row_at(sought, place);
            if here.bytes == beginning.len() {
                marks[place] = true;
            }
        }
    }
}

/// At each place whether the text of some tag begins as the value there does.
fn marks_of(sought: &Sought, tags: &[Tag], part: TagPart) -> Marks
    requires { IsSought sought.now }
    ensures { AreMarks (map (text_of part) tags.now) sought.now.values result }
{
    let mut marks = [false; MOST_VALUES];
    for at in 0..tags.len() {
        let text = text_of(&tags[at], part);
        mark(sought, text, &mut marks);
    }
    marks
}

/// Whether a value holds where some text begins as it says, or none does.
fn holds_by(value: &Text, begins: bool) -> bool
    ensures { result ≡ holds_by value.now begins }
{
    match value.as_bytes() {
        [b'!', ..] => !begins,
        _ => begins,
    }
}

/// Whether the value at a place holds of texts of tags. They are looked through once.
#[tactic(auto, using(crate::proofs::MarkLemmas::mark_within, crate::proofs::MarkLemmas::mark_holds))]
fn value_holds(
    sought: &Sought,
    place: usize,
    tags: &[Tag],
    part: TagPart,
    known: &mut Option<Marks>,
) -> bool
    requires place { place < length sought.now.values }
    requires sought { IsSought sought.now }
    requires known { IfSome known.old (AreMarks (map (text_of part) tags.now) sought.now.values) }
    ensures holds { result ≡ value_holds (map (text_of part) tags.now) (slice_index_or sought.now.values place []) }
    ensures known { IfSome known.new (AreMarks (map (text_of part) tags.now) sought.now.values) }
{
    let marks = match known {
        Some(marks) => *marks,
        None => marks_of(sought, tags, part),
    };
    *known = Some(marks);
    holds_by(&sought.values.as_slice()[place], marks[place])
}

/// The place so many behind another one.
pub(crate) fn place_at(sought: &Sought, first: usize, step: usize) -> usize
    requires { first + step ≤ length sought.now.values }
    ensures { result ≡ first + step }
{
    let behind = sought.values.len() - first;
    first + step.min(behind)
}

/// Whether some of so many values from a place on holds of texts of tags.
pub(crate) fn some_value_holds(
    sought: &Sought,
    first: usize,
    count: usize,
    tags: &[Tag],
    part: TagPart,
    known: &mut Option<Marks>,
) -> bool
    requires places { first + count ≤ length sought.now.values }
    requires sought { IsSought sought.now }
    requires known { IfSome known.old (AreMarks (map (text_of part) tags.now) sought.now.values) }
    ensures holds { result ≡ list_any (value_holds (map (text_of part) tags.now))
        (take count (drop first sought.now.values)) }
    ensures known { IfSome known.new (AreMarks (map (text_of part) tags.now) sought.now.values) }
{
    for step in 0..count {
        let place = place_at(sought, first, step);
        if value_holds(sought, place, tags, part, known) {
            return true;
        }
    }
    false
}

/// Adds values to others.
fn add_values(alloc: Global, values: &mut Vec<Text>, more: &[Text]) -> Result<(), NoMemory>
    ensures { OnOk result (values.new.items ≡ values.old.items ++ more.now) }
{
    for value in more {
        values.push(value.copy(alloc)?)?;
    }
    Ok(())
}

/// The values of filters, one filter after the other.
#[tactic(auto, using(crate::proofs::ValueLemmas::values_more))]
fn values_of(alloc: Global, filters: &[Filter]) -> Result<List<Text>, NoMemory>
    ensures { IfOk result (λ values. values ≡ values_of filters.now) }
{
    let mut values = Vec::new(alloc);
    for filter in filters {
        add_values(alloc, &mut values, filter.values.as_slice())?;
    }
    Ok(List::new(values))
}

/// The values that filters look for, unless they are few or more than filters of a message have.
pub(crate) fn sought_of(alloc: Global, filters: &[Filter]) -> Result<Option<Sought>, NoMemory>
    ensures { IfOk result (λ sought. IfSome sought (IsSoughtOf filters.now)) }
{
    let values = values_of(alloc, filters)?;
    if values.len() <= FEW || MOST_VALUES < values.len() {
        return Ok(None);
    }
    let among = partings_among(alloc, values.as_slice())?;
    Ok(Some(Sought { values, among }))
}
