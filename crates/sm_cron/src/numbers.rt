//! Numbers in decimal digits.
ghost use Rattle.std.specs.Prelude.{◌≡◌, ◌≤◌, min, IsTrue};
ghost use Rattle.std.specs.Char.{is_ascii_digit};
ghost use Rattle.std.specs.List.{list_all};
ghost use Rattle.sm_cron.specs.Languages.{is_near, is_number, number_of, numbers, reading_of};

use crate::reading::Reading;

/// Whether a text has digits alone.
fn is_all_digits(text: &[u8]) -> bool
    ensures { result ≡ list_all is_ascii_digit text.now }
{
    text.iter().all(|byte| byte.is_ascii_digit())
}

/// Whether a text is decimal digits without leading zeros.
#[tactic(auto, using(crate::proofs::NumberLemmas::is_number_by))]
fn is_number(text: &[u8]) -> bool
    ensures { result ≡ is_number text.now }
{
    if text.is_empty() {
        return false;
    }
    is_all_digits(text) && (text[0] != b'0' || text.len() == 1)
}

/// The number of decimal digits, or the greatest one that fits.
fn number_of(text: &[u8]) -> u32
    requires { IsTrue (is_number text.now) }
    ensures { result ≡ min (number_of text.now) u32.MAX }
{
    let mut number: u32 = 0;
    for byte in text {
        number = number
            .saturating_mul(10)
            .saturating_add(u32::from(*byte - b'0'));
    }
    number
}

#[tactic(auto, using(crate::proofs::NumberLemmas::reading_empty, crate::proofs::NumberLemmas::reading_no_number, crate::proofs::NumberLemmas::reading_in, crate::proofs::NumberLemmas::reading_near, crate::proofs::NumberLemmas::reading_far))]
/// What a text is to the numbers between two others.
pub(crate) fn number(low: u32, greatest: u32, text: &[u8]) -> Reading<u32>
    requires { greatest ≤ 24_000 }
    ensures { result ≡ reading_of (numbers low greatest) text.now }
{
    if text.is_empty() {
        return Reading::Front;
    }
    if !is_number(text) {
        return Reading::Fault;
    }
    let number = number_of(text);
    if low <= number && number <= greatest {
        Reading::Text(number)
    } else if 0 < number && number <= greatest / 10 && low <= 10 * number + 9 {
        Reading::Front
    } else {
        Reading::Fault
    }
}
