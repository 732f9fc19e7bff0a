//! Whether no key of a tag stands twice (AWS Secrets Manager API Reference, Tag).
ghost use Rattle.std.specs.Prelude.{◌≡◌, ◌≤◌, ◌<◌, ℕ, length, slice_index};
ghost use Rattle.std.specs.List.{IsAllAdjacentAnswer, list_any};
ghost use Rattle.std.specs.List.Sorted.{IsPermutation, IsSortedBy};
ghost use Rattle.sm_base.specs.Texts.{same_text};
ghost use Rattle.sm_versions.specs.Sound.{tag_keys};
ghost use Rattle.sm_versions.specs.Texts.{once};
ghost use Rattle.sm_forms.specs.KeyOrder.{key_of, by_bytes, comes_before};

use sm_base::limits::TAGS_LIMIT;
use sm_model::{Tag, Text};
use std::cmp::Ordering;

/// So many tags have places of 16 bits. A tag takes 12 bytes of a message at least, so a message has fewer.
const PLACES: usize = 65_536;

/// Whether no key stands twice. So few tags as a secret may have are compared in pairs; those of a longer list are
/// brought into order, so that the cost of a list grows little faster than the list.
pub fn each_key_once(tags: &[Tag]) -> bool
    ensures { result ≡ once (tag_keys tags.now) }
{
    if tags.len() <= TAGS_LIMIT as usize || PLACES < tags.len() {
        once_in_pairs(tags)
    } else {
        once_with_places(tags)
    }
}

// ---- in pairs

fn is_same(text: &Text, other: &Text) -> bool
    ensures { result ≡ same_text text.now other.now }
{
    text.equals(other)
}

/// Whether one of the tags has the key.
fn has_key(tags: &[Tag], key: &Text) -> bool
    ensures { result ≡ list_any (λ tag. same_text tag.key key.now) tags.now }
{
    tags.iter().any(|tag| is_same(&tag.key, key))
}

/// Whether no key stands twice, by comparing each with those behind it.
fn once_in_pairs(tags: &[Tag]) -> bool
    ensures { result ≡ once (tag_keys tags.now) }
{
    for (index, tag) in tags.iter().enumerate() {
        if has_key(&tags[index + 1..], &tag.key) {
            return false;
        }
    }
    true
}

// ---- in order

/// Whether no key stands twice, by the places of the tags in the order of their keys. It takes no memory: the places
/// lie on the stack.
fn once_with_places(tags: &[Tag]) -> bool
    requires { length tags.now ≤ 65536 }
    ensures { result ≡ once (tag_keys tags.now) }
{
    let mut places = [0u16; PLACES];
    once_in_order(tags, &mut places[..tags.len()])
}

/// Whether no key stands twice, given room for a place of each tag.
#[tactic(auto, using(crate::proofs::KeyOrderLemmas::once_in_order))]
fn once_in_order(tags: &[Tag], places: &mut [u16]) -> bool
    requires few { length tags.now ≤ 65536 }
    requires room { length places.old ≡ length tags.now }
    ensures { result ≡ once (tag_keys tags.now) }
{
    number(places);
    sort(tags, places);
    rise(tags, places)
}

/// Numbers the places from 0 on.
fn number(places: &mut [u16])
    requires { length places.old ≤ 65536 }
    ensures same_length { length places.new ≡ length places.old }
    ensures numbered { (k : ℕ) → k < length places.old → slice_index places.new k ≡ k }
{
    for (place, slot) in places.iter_mut().enumerate() {
        *slot = place as u16;
    }
}

/// Brings the places into the order of their keys.
fn sort(tags: &[Tag], places: &mut [u16])
    ensures permutation { IsPermutation places.old places.new }
    ensures sorted { IsSortedBy (comes_before tags.now) places.new }
{
    places.sort_unstable_by(|one, other| compare(tags, one, other));
}

/// Whether the key at each place comes before that at the next.
fn rise(tags: &[Tag], places: &[u16]) -> bool
    ensures { IsAllAdjacentAnswer (λ one other b. b ≡ comes_before tags.now one other) places.now result }
{
    places.is_sorted_by(|one, other| comes_before(tags, one, other))
}

/// Whether the key at one place comes before that at the other.
fn comes_before(tags: &[Tag], one: &u16, other: &u16) -> bool
    ensures { result ≡ comes_before tags.now one.now other.now }
{
    compare(tags, one, other).is_lt()
}

/// How the keys at two places stand to each other, byte by byte.
fn compare(tags: &[Tag], one: &u16, other: &u16) -> Ordering
    ensures { result ≡ by_bytes (key_of tags.now one.now) (key_of tags.now other.now) }
{
    key_at(tags, one).cmp(key_at(tags, other))
}

/// The key of the tag at a place, or an empty one behind the last.
#[tactic(auto, using(crate::proofs::KeyOrderLemmas::key_here, crate::proofs::KeyOrderLemmas::key_past))]
fn key_at<'a>(tags: &'a [Tag], place: &u16) -> &'a [u8]
    ensures { result.now ≡ key_of tags.now place.now }
{
    match tags.get(*place as usize) {
        Some(tag) => tag.key.as_bytes(),
        None => b"",
    }
}
