//! Patterns with `*` and `?` (IAM User Guide, "IAM JSON policy elements: Condition operators", string conditions).
ghost use Rattle.std.specs.Prelude.{◌≡◌, ◌==◌, ◌||◌, ◌<◌, ◌^◌, ◌↔◌, ◌∷◌, [], IsTrue, MatchOption, length, chars};
ghost use Rattle.sm_policy.specs.Patterns.{letter, letters, wild, Wild};
ghost use Rattle.sm_policy.specs.Characters.{Continues, Begins, BeginsAs};
ghost use Rattle.sm_policy.specs.Steps.{IsStep};

/// The character `*`.
pub(crate) const STAR: u32 = 42;

/// The character `?`.
pub(crate) const ANY: u32 = 63;

/// How characters are compared.
#[derive(Clone, Copy, Debug, PartialEq, Eq)]
pub enum Case {
    Exact,
    /// ASCII letters in lower case.
    Folded,
}

impl Case {
    /// The character as it is compared.
    fn letter(self, character: u32) -> u32
        requires { character < 2 ^ 31 }
        ensures { result ≡ letter self character }
    {
        match self {
            Case::Exact => character,
            Case::Folded => {
                if character < 65 {
                    character
                } else if character < 91 {
                    character + 32
                } else {
                    character
                }
            }
        }
    }
}

/// A place in a pattern and one in a text: what follows them.
#[derive(Clone, Copy)]
pub(crate) struct Places<'a> {
    pub pattern: &'a [u8],
    pub text: &'a [u8],
}

/// How a match goes on.
#[derive(Clone, Copy)]
pub(crate) enum Step<'a> {
    /// Behind a `*`.
    Star(Places<'a>),
    /// Behind one character of both.
    Both(Places<'a>),
    /// Both are at their ends, or a `*` is all that is left of the pattern.
    End,
    /// What follows doesn't match.
    Apart,
}

/// The first byte of a text, and what follows it.
fn first_byte(text: &[u8]) -> Option<(u8, &[u8])>
    ensures { MatchOption result (text.now ≡ []) (λ first. text.now ≡ first.0 ∷ first.1.now) }
{
    match text.split_first() {
        Some((byte, rest)) => Some((*byte, rest)),
        None => None,
    }
}

/// The bits of a character with those of one byte more, and what follows that byte.
fn continued(bits: u32, text: &[u8]) -> Option<(u32, &[u8])>
    requires { bits < 2 ^ 20 }
    ensures { MatchOption result (text.now ≡ []) (λ more. Continues bits text.now more.0 more.1.now) }
{
    match text {
        [] => None,
        [byte, rest @ ..] => Some((bits * 64 + u32::from(byte.saturating_sub(128)), rest)),
    }
}

/// The first character of a text of UTF-8 and what follows it (The Unicode Standard, table 3-6).
#[tactic(auto, using(crate::proofs::CharacterLemmas::no_character, crate::proofs::CharacterLemmas::one_byte, crate::proofs::CharacterLemmas::two_bytes, crate::proofs::CharacterLemmas::three_bytes, crate::proofs::CharacterLemmas::four_bytes, crate::proofs::CharacterLemmas::two_cut, crate::proofs::CharacterLemmas::three_cut, crate::proofs::CharacterLemmas::four_cut, crate::proofs::CharacterLemmas::three_cut_later, crate::proofs::CharacterLemmas::four_cut_later, crate::proofs::CharacterLemmas::four_cut_last))]
fn first_character(text: &[u8]) -> Option<(u32, &[u8])>
    ensures { MatchOption result (chars text.now ≡ []) (λ first. Begins text.now first.0 first.1.now) }
{
    let Some((lead, rest)) = first_byte(text) else {
        return None;
    };
    if lead < 0x80 {
        return Some((u32::from(lead), rest));
    }
    if lead < 0xE0 {
        return continued(u32::from(lead.saturating_sub(0xC0)), rest);
    }
    if lead < 0xF0 {
        let Some((bits, rest)) = continued(u32::from(lead.saturating_sub(0xE0)), rest) else {
            return None;
        };
        return continued(bits, rest);
    }
    let Some((bits, rest)) = continued(u32::from(lead.saturating_sub(0xF0)), rest) else {
        return None;
    };
    let Some((bits, rest)) = continued(bits, rest) else {
        return None;
    };
    continued(bits, rest)
}

/// The first character of a text as it is compared, and what follows it.
#[tactic(auto, using(crate::proofs::StepLemmas::no_letter, crate::proofs::StepLemmas::first_letter))]
pub(crate) fn first_letter(case: Case, text: &[u8]) -> Option<(u32, &[u8])>
    ensures { MatchOption result (letters case text.now ≡ []) (λ first. BeginsAs case text.now first.0 first.1.now) }
{
    match first_character(text) {
        Some((character, rest)) => Some((case.letter(character), rest)),
        None => None,
    }
}

/// Whether a character of a pattern that is no `*` matches one of a text.
fn admits(wanted: u32, found: u32) -> bool
    ensures { result ≡ (wanted == 63 || wanted == found) }
{
    wanted == ANY || wanted == found
}

/// How the match goes on from two places.
#[tactic(auto, using(crate::proofs::StepLemmas::at_star, crate::proofs::StepLemmas::at_last_star, crate::proofs::StepLemmas::at_both, crate::proofs::StepLemmas::at_end, crate::proofs::StepLemmas::text_is_longer, crate::proofs::StepLemmas::text_is_shorter, crate::proofs::StepLemmas::apart))]
fn next_step<'a>(case: Case, here: Places<'a>) -> Step<'a>
    ensures { IsStep case here.entry result }
{
    let Some((wanted, pattern)) = first_letter(case, here.pattern) else {
        return match first_letter(case, here.text) {
            Some(_) => Step::Apart,
            None => Step::End,
        };
    };
    if wanted == STAR {
        if pattern.is_empty() {
            return Step::End;
        }
        return Step::Star(Places {
            pattern,
            text: here.text,
        });
    }
    let Some((found, text)) = first_letter(case, here.text) else {
        return Step::Apart;
    };
    if admits(wanted, found) {
        Step::Both(Places { pattern, text })
    } else {
        Step::Apart
    }
}

/// Whether a pattern matches a text. It keeps two places, here and behind the last `*`, and where what follows doesn't
/// match it goes on behind that `*`, one character further in the text. So it makes at most as many steps as the
/// text's length times the pattern's, and some.
#[tactic(auto, using(crate::proofs::MatchLemmas::begins, crate::proofs::MatchLemmas::past_star, crate::proofs::MatchLemmas::past_both, crate::proofs::MatchLemmas::at_end, crate::proofs::MatchLemmas::goes_back, crate::proofs::MatchLemmas::no_star, crate::proofs::MatchLemmas::text_is_over, crate::proofs::WorkLemmas::star_work, crate::proofs::WorkLemmas::both_work, crate::proofs::WorkLemmas::back_work))]
pub fn is_match(case: Case, pattern: &[u8], text: &[u8]) -> bool
    ensures value { result ≡ wild (letters case pattern.now) (letters case text.now) }
{
    let mut here = Places { pattern, text };
    let mut star: Option<Places> = None;
    loop {
        match next_step(case, here) {
            Step::Star(next) => {
                star = Some(next);
                here = next;
            }
            Step::Both(next) => here = next,
            Step::End => return true,
            Step::Apart => {
                let Some(last) = star else {
                    return false;
                };
                let Some((_, text)) = first_letter(case, last.text) else {
                    return false;
                };
                here = Places {
                    pattern: last.pattern,
                    text,
                };
                star = Some(here);
            }
        }
    }
}
