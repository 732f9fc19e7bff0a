//! The fields of hours, days, months and weekdays.
ghost use Rattle.std.specs.Prelude.{◌≡◌, codes, false};
ghost use Rattle.sm_cron.specs.Languages.{meaning, reading_of, where_true, word};
ghost use Rattle.sm_cron.specs.Spelling.{day_set, days_field, everything, field_of, items, may_be_open, whole};
ghost use Rattle.sm_cron.specs.declared.field.Field.TheVariants.{Days as OfDays};

use crate::days::Days;
use crate::field::Field;
use crate::items::item;
use crate::reading::{Reading, parted, word};
use crate::steps::Steps;

/// Items with commas between them.
fn items(field: Field, text: &[u8]) -> Reading<u32>
    ensures { result ≡ reading_of (items field) text.now }
{
    let mut set = 0;
    let mut rest = text;
    while let Some((before, behind)) = parted(b',', rest) {
        match item(field, before) {
            Reading::Text(steps) => set |= steps.set(field.greatest()),
            Reading::Front => return Reading::Fault,
            Reading::Fault => return Reading::Fault,
        }
        rest = behind;
    }
    match item(field, rest) {
        Reading::Text(steps) => Reading::Text(set | steps.set(field.greatest())),
        Reading::Front => Reading::Front,
        Reading::Fault => Reading::Fault,
    }
}

/// The set of all numbers of a field.
fn everything(field: Field) -> u32
    ensures { result ≡ everything field }
{
    let all = Steps {
        first: field.least(),
        last: field.greatest(),
        by: 1,
    };
    all.set(field.greatest())
}

/// `?`, where a field may be that.
#[tactic(auto, using(crate::proofs::ReadingLemmas::reading_where, crate::proofs::ReadingLemmas::reading_nowhere))]
fn open(field: Field, text: &[u8]) -> Reading<u32>
    ensures { result ≡ reading_of (where_true (may_be_open field) (word (codes "?") (everything field))) text.now }
{
    if field.may_be_open() {
        word(b"?", everything(field), text)
    } else {
        Reading::Fault
    }
}

/// A field that names all of its numbers.
#[tactic(auto, unfolding(crate::specs::Spelling::whole), using(crate::proofs::ReadingLemmas::either_of))]
fn whole(field: Field, text: &[u8]) -> Reading<u32>
    ensures { result ≡ reading_of (whole field) text.now }
{
    word(b"*", everything(field), text).or(open(field, text))
}

/// What a text is to a field of sets.
#[tactic(auto, unfolding(crate::specs::Spelling::field_of), using(crate::proofs::ReadingLemmas::either_of))]
pub(crate) fn field_of(field: Field, text: &[u8]) -> Reading<u32>
    ensures { result ≡ reading_of (field_of field) text.now }
{
    items(field, text).or(whole(field, text))
}

/// Days by their numbers.
fn numbered_days(text: &[u8]) -> Reading<Days>
    ensures { result ≡ reading_of (meaning (λ set. day_set set false) (field_of OfDays)) text.now }
{
    match field_of(Field::Days, text) {
        Reading::Text(set) => Reading::Text(Days { set, last: false }),
        Reading::Front => Reading::Front,
        Reading::Fault => Reading::Fault,
    }
}

/// What a text is to the field of days.
#[tactic(auto, unfolding(crate::specs::Spelling::days_field), using(crate::proofs::ReadingLemmas::either_of))]
pub(crate) fn days_field(text: &[u8]) -> Reading<Days>
    ensures { result ≡ reading_of days_field text.now }
{
    let last = Days { set: 0, last: true };
    numbered_days(text).or(word(b"L", last, text))
}
