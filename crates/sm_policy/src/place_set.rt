//! Sets of places in a text, a bit for each.
ghost use Rattle.std.specs.Prelude.{◌≡◌, ◌≢◌, ◌≤◌, ◌<◌, ◌+◌, ◌==◌, ◌&&◌, ◌||◌, ℕ, true, false, nat_le, MatchOption};
ghost use Rattle.std.specs.Int.{bit_at};
ghost use Rattle.sm_policy.specs.PlaceSets.{has, IsEmptySet, IsLowestOne, IsLowest};

/// So many words have the bits of a set.
pub const WORDS: usize = 10;

/// So many places a set may have.
pub const PLACES: usize = 640;

/// The places of a set: bit `place % 64` of word `place / 64` says whether the place is in it.
pub type PlaceSet = [u64; WORDS];

/// Whether the place is in the set.
pub fn has(set: &PlaceSet, place: usize) -> bool
    requires { place < 640 }
    ensures { result ≡ has set.now place }
{
    (set[place / 64] >> (place % 64)) & 1 == 1
}

/// Puts the place into the set.
#[tactic(auto, using(crate::proofs::PlaceSetLemmas::put_in))]
pub fn put(set: &mut PlaceSet, place: usize)
    requires { place < 640 }
    ensures { (other : ℕ) → other < 640 → has set.new other ≡ (other == place || has set.old other) }
{
    set[place / 64] |= 1 << (place % 64);
}

/// Keeps those places that are in the other set too.
#[tactic(auto, using(crate::proofs::PlaceSetLemmas::kept_in))]
pub fn keep(set: &mut PlaceSet, other: &PlaceSet)
    ensures { (place : ℕ) → place < 640 → has set.new place ≡ (has set.old place && has other.now place) }
{
    for index in 0..WORDS {
        set[index] &= other[index];
    }
}

/// Puts each place on by one.
#[tactic(auto, using(crate::proofs::PlaceSetLemmas::none_first, crate::proofs::PlaceSetLemmas::put_later))]
pub fn advance(set: &mut PlaceSet)
    ensures first { has set.new 0 ≡ false }
    ensures later { (place : ℕ) → place + 1 < 640 → has set.new (place + 1) ≡ has set.old place }
{
    let mut carry = 0;
    for index in 0..WORDS {
        let word = set[index];
        set[index] = (word << 1) | carry;
        carry = word >> 63;
    }
}

/// The lowest bit of the word that is 1.
#[tactic(auto, using(crate::proofs::PlaceSetLemmas::lowest_one))]
fn lowest_one(word: u64) -> usize
    requires { word ≢ 0 }
    ensures { IsLowestOne word result }
{
    word.trailing_zeros() as usize
}

/// The lowest place of the set.
#[tactic(auto, using(crate::proofs::PlaceSetLemmas::lowest_here, crate::proofs::PlaceSetLemmas::no_lowest))]
pub fn lowest(set: &PlaceSet) -> Option<usize>
    ensures { MatchOption result (IsEmptySet set.now) (λ low. IsLowest set.now low) }
{
    for index in 0..WORDS {
        let word = set[index];
        if word != 0 {
            return Some(64 * index + lowest_one(word));
        }
    }
    None
}

/// The bits from one on.
#[tactic(auto, using(crate::proofs::PlaceSetLemmas::no_ones, crate::proofs::PlaceSetLemmas::ones_of))]
fn ones_from(low: usize) -> u64
    ensures { (place : ℕ) → place < 64 → (bit_at result place == 1) ≡ nat_le low place }
{
    if low < 64 { u64::MAX << low } else { 0 }
}

/// Makes it the set of all places from one on.
#[tactic(auto, using(crate::proofs::PlaceSetLemmas::filled_from))]
pub fn fill_from(set: &mut PlaceSet, low: usize)
    ensures { (place : ℕ) → place < 640 → has set.new place ≡ nat_le low place }
{
    for index in 0..WORDS {
        set[index] = ones_from(low.saturating_sub(64 * index));
    }
}
