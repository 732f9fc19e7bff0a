//! Schedules by hours or days that pass: `<number> <unit>`.
ghost use Rattle.std.specs.Prelude.{◌≡◌, ◌*◌, codes, nat_le};
ghost use Rattle.sm_cron.specs.Languages.{either, reading_of, where_true, word};
ghost use Rattle.sm_cron.specs.Spelling.{rate, unit};

use crate::numbers::number;
use crate::reading::{Reading, parted, word};

/// So many hours, at least 4.
fn hours(number: u32, text: &[u8]) -> Reading<u64>
    ensures { result ≡ reading_of (where_true (nat_le 4 number)
        (either (word (codes "hour") (number * 3_600)) (word (codes "hours") (number * 3_600)))) text.now }
{
    if number < 4 {
        return Reading::Fault;
    }
    let seconds = u64::from(number) * 3_600;
    word(b"hour", seconds, text).or(word(b"hours", seconds, text))
}

/// So many days, at most 1,000.
fn days(number: u32, text: &[u8]) -> Reading<u64>
    ensures { result ≡ reading_of (where_true (nat_le number 1_000)
        (either (word (codes "day") (number * 86_400)) (word (codes "days") (number * 86_400)))) text.now }
{
    if 1_000 < number {
        return Reading::Fault;
    }
    let seconds = u64::from(number) * 86_400;
    word(b"day", seconds, text).or(word(b"days", seconds, text))
}

/// The unit of a number, as the seconds of so many.
#[tactic(auto, unfolding(crate::specs::Spelling::unit), using(crate::proofs::ReadingLemmas::either_of))]
fn unit(number: u32, text: &[u8]) -> Reading<u64>
    ensures { result ≡ reading_of (unit number) text.now }
{
    hours(number, text).or(days(number, text))
}

/// What a text is to the rates.
pub(crate) fn rate(text: &[u8]) -> Reading<u64>
    ensures { result ≡ reading_of rate text.now }
{
    match parted(b' ', text) {
        None => number(1, 24_000, text).unfinished(),
        Some((before, behind)) => match number(1, 24_000, before) {
            Reading::Text(count) => unit(count, behind),
            Reading::Front => Reading::Fault,
            Reading::Fault => Reading::Fault,
        },
    }
}
