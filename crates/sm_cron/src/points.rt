//! The numbers of a field, and their names.
ghost use Rattle.std.specs.Prelude.{◌≡◌, nat_le};
ghost use Rattle.sm_cron.specs.Languages.{reading_of, where_true, word, words_of};
ghost use Rattle.sm_cron.specs.Spelling.{least, names, point};

use crate::field::Field;
use crate::numbers::number;
use crate::reading::{Reading, word};

/// What a text is to a name that stands for a number, where that is at least a low one.
fn name_from(low: u32, number: u32, name: &str, text: &[u8]) -> Reading<u32>
    ensures { result ≡ reading_of (where_true (nat_le low number) (word name.now number)) text.now }
{
    if low <= number {
        word(name.as_bytes(), number, text)
    } else {
        Reading::Fault
    }
}

/// What a text is to the names of a field, from a number on.
fn name(field: Field, low: u32, text: &[u8]) -> Reading<u32>
    ensures { result ≡ reading_of (words_of low 1 (names field)) text.now }
{
    let mut so_far = Reading::Fault;
    let names = field.names();
    for (place, name) in names.iter().enumerate() {
        so_far = so_far.or(name_from(low, place as u32 + 1, name, text));
    }
    so_far
}

/// What a text is to the numbers of a field, from one on, and their names.
#[tactic(auto, unfolding(crate::specs::Spelling::point), using(crate::proofs::ReadingLemmas::either_of))]
pub(crate) fn point(field: Field, low: u32, text: &[u8]) -> Reading<u32>
    ensures { result ≡ reading_of (point field low) text.now }
{
    number(low, field.greatest(), text).or(name(field, low, text))
}

/// What a text is to all numbers of a field and their names.
pub(crate) fn any_point(field: Field, text: &[u8]) -> Reading<u32>
    ensures { result ≡ reading_of (point field (least field)) text.now }
{
    point(field, field.least(), text)
}
