//! The items of a field.
ghost use Rattle.std.specs.Prelude.{◌≡◌};
ghost use Rattle.sm_cron.specs.Languages.{meaning, numbers, reading_of};
ghost use Rattle.sm_cron.specs.Spelling.{greatest, item, point, range, single, start, stepped, steps};

use crate::field::Field;
use crate::numbers::number;
use crate::points::{any_point, point};
use crate::reading::{Reading, parted, word};
use crate::steps::Steps;

/// One number.
fn single(field: Field, text: &[u8]) -> Reading<Steps>
    ensures { result ≡ reading_of (single field) text.now }
{
    match any_point(field, text) {
        Reading::Text(number) => Reading::Text(Steps {
            first: number,
            last: number,
            by: 1,
        }),
        Reading::Front => Reading::Front,
        Reading::Fault => Reading::Fault,
    }
}

/// The end of the numbers from one to another.
fn range_end(field: Field, first: u32, text: &[u8]) -> Reading<Steps>
    ensures { result ≡ reading_of (meaning (λ last. steps first last 1) (point field first)) text.now }
{
    match point(field, first, text) {
        Reading::Text(last) => Reading::Text(Steps { first, last, by: 1 }),
        Reading::Front => Reading::Front,
        Reading::Fault => Reading::Fault,
    }
}

/// The numbers from one to another.
fn range(field: Field, text: &[u8]) -> Reading<Steps>
    ensures { result ≡ reading_of (range field) text.now }
{
    match parted(b'-', text) {
        None => any_point(field, text).unfinished(),
        Some((before, behind)) => match any_point(field, before) {
            Reading::Text(first) => range_end(field, first, behind),
            Reading::Front => Reading::Fault,
            Reading::Fault => Reading::Fault,
        },
    }
}

/// Where steps begin.
#[tactic(auto, unfolding(crate::specs::Spelling::start), using(crate::proofs::ReadingLemmas::either_of))]
fn start(field: Field, text: &[u8]) -> Reading<u32>
    ensures { result ≡ reading_of (start field) text.now }
{
    let least = field.least();
    let all = word(b"*", least, text).or(word(b"", least, text));
    any_point(field, text).or(all)
}

/// How long steps from a number are.
fn length(field: Field, first: u32, text: &[u8]) -> Reading<Steps>
    ensures { result ≡ reading_of (meaning (λ by. steps first (greatest field) by) (numbers 1 31)) text.now }
{
    match number(1, 31, text) {
        Reading::Text(by) => Reading::Text(Steps {
            first,
            last: field.greatest(),
            by,
        }),
        Reading::Front => Reading::Front,
        Reading::Fault => Reading::Fault,
    }
}

/// The numbers from one to the greatest in steps.
fn stepped(field: Field, text: &[u8]) -> Reading<Steps>
    ensures { result ≡ reading_of (stepped field) text.now }
{
    match parted(b'/', text) {
        None => start(field, text).unfinished(),
        Some((before, behind)) => match start(field, before) {
            Reading::Text(first) => length(field, first, behind),
            Reading::Front => Reading::Fault,
            Reading::Fault => Reading::Fault,
        },
    }
}

/// What a text is to the items of a field.
#[tactic(auto, unfolding(crate::specs::Spelling::item), using(crate::proofs::ReadingLemmas::either_of))]
pub(crate) fn item(field: Field, text: &[u8]) -> Reading<Steps>
    ensures { result ≡ reading_of (item field) text.now }
{
    single(field, text).or(range(field, text).or(stepped(field, text)))
}
