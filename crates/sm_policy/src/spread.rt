//! Where each character of a text stands, so that patterns are matched at all of its places at once.
//!
//! A walk along a pattern goes back behind a `*` for each place at which what follows doesn't match, so it may take as
//! many steps as the text's length times the pattern's. A set of places, a bit for each, takes a few words for each
//! character of the pattern.
ghost use Rattle.std.specs.Prelude.{◌≡◌, ◌<◌, ◌^◌, ◌++◌, ◌∷◌, ℕ, List, [], true, IfSome, length};
ghost use Rattle.std.specs.Option.{ForSome};
ghost use Rattle.sm_policy.specs.Patterns.{letters, wild};
ghost use Rattle.sm_policy.specs.Spreads.{IsNoted, Spreads, Stand, GoOn};

use crate::pattern::{ANY, Case, STAR, first_letter, is_match};
use crate::place_set::{PLACES, PlaceSet, WORDS, advance, fill_from, has, keep, lowest, put};

/// Below this one are the characters that have rows. All of Unicode's are.
const LIMIT: u32 = 0x20_0000;

/// How many values seven bits have.
const VALUES: usize = 128;

/// For each value of seven bits of a character the places of the characters that have it.
type Rows = [PlaceSet; VALUES];

/// Where each character of a text stands: a place is in the row of each of a character's three parts.
#[derive(Drop)]
pub struct Spread {
    /// By the lowest seven bits.
    pub(crate) low: Rows,
    /// By the next seven bits.
    pub(crate) middle: Rows,
    /// By the bits behind them.
    pub(crate) high: Rows,
    /// All places.
    pub(crate) all: PlaceSet,
    /// How many characters there are.
    pub(crate) length: usize,
}

/// The empty text.
pub(crate) fn nothing() -> Spread
    ensures { Spreads [] result }
{
    Spread {
        low: [[0; WORDS]; VALUES],
        middle: [[0; WORDS]; VALUES],
        high: [[0; WORDS]; VALUES],
        all: [0; WORDS],
        length: 0,
    }
}

/// Puts the place into the row of the value.
#[tactic(auto, using(crate::proofs::SpreadLemmas::noted))]
fn note(rows: &mut Rows, value: u32, place: usize)
    requires value { value < 128 }
    requires place { place < 640 }
    ensures { IsNoted rows.old value place rows.new }
{
    put(&mut rows[value as usize], place);
}

/// Adds a character behind the text.

fn add(spread: &mut Spread, letter: u32)
    requires narrow { letter < 2 ^ 21 }
    requires room { spread.old.length < 639 }
    ensures { (text : List ℕ) → Spreads text spread.old → Spreads (text ++ letter ∷ []) spread.new }
{
    let place = spread.length;
    note(&mut spread.low, letter % 128, place);
    note(&mut spread.middle, letter / 128 % 128, place);
    note(&mut spread.high, letter / 16384, place);
    put(&mut spread.all, place);
    spread.length += 1;
}

/// Notes in an empty spread where each character of the text stands as it is compared, and says whether there was room
/// for all of them. The spread stays where it is, since to move it would take longer than to fill it.
pub(crate) fn spread_text(spread: &mut Spread, case: Case, text: &[u8]) -> bool
    ensures { Spreads [] spread.old → result ≡ true → Spreads (letters case text.now) spread.new }
{
    let mut rest = text;
    loop {
        let Some((letter, next)) = first_letter(case, rest) else {
            return true;
        };
        if letter >= LIMIT || spread.length >= PLACES - 1 {
            return false;
        }
        add(spread, letter);
        rest = next;
    }
}

/// Where each character of the text stands as it is compared, or none where there are too many characters.
pub fn spread_of(case: Case, text: &[u8]) -> Option<Spread>
    ensures { IfSome result (λ spread. Spreads (letters case text.now) spread) }
{
    let mut spread = nothing();
    if spread_text(&mut spread, case, text) {
        Some(spread)
    } else {
        None
    }
}

/// Keeps the places at which the character stands.
#[tactic(auto, using(crate::proofs::SpreadLemmas::stand_here, crate::proofs::SpreadLemmas::stand_nowhere))]
fn keep_letter(set: &mut PlaceSet, spread: &Spread, wanted: u32)
    ensures { (text : List ℕ) → Spreads text spread.now → Stand text wanted set.old set.new }
{
    if wanted < LIMIT {
        keep(set, &spread.low[(wanted % 128) as usize]);
        keep(set, &spread.middle[(wanted / 128 % 128) as usize]);
        keep(set, &spread.high[(wanted / 16384) as usize]);
    } else {
        *set = [0; WORDS];
    }
}

/// Goes on behind the places at which a character stands that the wanted one, which is no `*`, admits.
#[tactic(auto, using(crate::proofs::SpreadLemmas::go_on_any, crate::proofs::SpreadLemmas::go_on_same))]
fn go_on(set: &mut PlaceSet, spread: &Spread, wanted: u32)
    ensures { (text : List ℕ) → Spreads text spread.now → GoOn text wanted set.old set.new }
{
    if wanted == ANY {
        keep(set, &spread.all);
    } else {
        keep_letter(set, spread, wanted);
    }
    advance(set);
}

/// Whether the pattern matches the text that is spread. Each character of the pattern takes the set of the places up to
/// which what is before it matches to the set of those up to which it matches too.
pub fn is_match_in(case: Case, pattern: &[u8], spread: &Spread) -> bool
    ensures { (text : List ℕ) → Spreads text spread.now → result ≡ wild (letters case pattern.now) text }
{
    let mut set = [0; WORDS];
    put(&mut set, 0);
    let mut rest = pattern;
    loop {
        let Some((wanted, next)) = first_letter(case, rest) else {
            return spread.length < PLACES && has(&set, spread.length);
        };
        if wanted == STAR {
            let Some(low) = lowest(&set) else {
                return false;
            };
            fill_from(&mut set, low);
        } else {
            go_on(&mut set, spread, wanted);
        }
        rest = next;
    }
}

/// A text that patterns are matched with.
#[derive(Clone, Copy)]
pub(crate) struct Sought<'a> {
    case: Case,
    text: &'a [u8],
    /// Where its characters stand, if it was spread.
    spread: Option<&'a Spread>,
    pub ghost spread_is: { ForSome spread (λ spread. Spreads (letters case text.now) spread.now) },
}

impl<'a> Sought<'a> {
    /// The text, along which each pattern is walked.
    pub(crate) fn walked(case: Case, text: &'a [u8]) -> Sought<'a>
        ensures { (result.case ≡ case) × (result.text.now ≡ text.now) }
    {
        Sought {
            case,
            text,
            spread: None,
        }
    }

    /// The text with its spread, if that is whole.
    pub(crate) fn spread(
        case: Case,
        text: &'a [u8],
        spread: &'a Spread,
        is_whole: bool,
    ) -> Sought<'a>
        requires { is_whole ≡ true → Spreads (letters case text.now) spread.now }
        ensures { (result.case ≡ case) × (result.text.now ≡ text.now) }
    {
        if !is_whole {
            return Sought::walked(case, text);
        }
        Sought {
            case,
            text,
            spread: Some(spread),
        }
    }

    /// Whether the pattern matches the text.
    pub(crate) fn is_matched(&self, pattern: &[u8]) -> bool
        ensures { result ≡ wild (letters self.now.case pattern.now) (letters self.now.case self.now.text.now) }
    {
        let Some(spread) = self.spread else {
            return is_match(self.case, pattern, self.text);
        };
        if has_gap(pattern) {
            is_match_in(self.case, pattern, spread)
        } else {
            is_match(self.case, pattern, self.text)
        }
    }
}

/// Whether something else than `*` follows a `*`, so that a walk along the pattern may have to go back.
pub(crate) fn has_gap(pattern: &[u8]) -> bool {
    let mut is_behind_star = false;
    for byte in pattern {
        if *byte != b'*' {
            if is_behind_star {
                return true;
            }
        } else {
            is_behind_star = true;
        }
    }
    false
}
