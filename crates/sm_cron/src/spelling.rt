//! The spelling of schedules.
ghost use Rattle.std.specs.Prelude.{◌≡◌, IsTrue};
ghost use Rattle.sm_base.specs.FirstFault.{IsFirstFault};
ghost use Rattle.sm_cron.specs.Languages.{reading_of};
ghost use Rattle.sm_cron.specs.Spelling.{inner, is_schedule, kind, schedule};
ghost use Rattle.sm_cron.specs.declared.spelling.Kind.TheVariants.{OfCron, OfRate};

use crate::crons::cron;
use crate::rates::rate;
use crate::reading::{Reading, parted, word};
use crate::schedule::Schedule;

/// What a schedule goes by.
#[derive(Clone, Copy)]
pub(crate) enum Kind {
    OfRate,
    OfCron,
}

/// The word before the brackets.
#[tactic(auto, unfolding(crate::specs::Spelling::kind), using(crate::proofs::ReadingLemmas::either_of))]
fn opening(text: &[u8]) -> Reading<Kind>
    ensures { result ≡ reading_of kind text.now }
{
    word(b"rate", Kind::OfRate, text).or(word(b"cron", Kind::OfCron, text))
}

/// What stands in the brackets of a rate, and the closing one.
fn inner_rate(text: &[u8]) -> Reading<Schedule>
    ensures { result ≡ reading_of (inner OfRate) text.now }
{
    match parted(b')', text) {
        None => rate(text).unfinished(),
        Some((before, behind)) => match rate(before) {
            Reading::Text(seconds) => word(b"", Schedule::Rate(seconds), behind),
            Reading::Front => Reading::Fault,
            Reading::Fault => Reading::Fault,
        },
    }
}

/// What stands in the brackets of a cron, and the closing one.
fn inner_cron(text: &[u8]) -> Reading<Schedule>
    ensures { result ≡ reading_of (inner OfCron) text.now }
{
    match parted(b')', text) {
        None => cron(text).unfinished(),
        Some((before, behind)) => match cron(before) {
            Reading::Text(cron) => word(b"", Schedule::Cron(cron), behind),
            Reading::Front => Reading::Fault,
            Reading::Fault => Reading::Fault,
        },
    }
}

/// What stands in the brackets, and the closing one.
fn inner(kind: Kind, text: &[u8]) -> Reading<Schedule>
    ensures { result ≡ reading_of (inner kind) text.now }
{
    match kind {
        Kind::OfRate => inner_rate(text),
        Kind::OfCron => inner_cron(text),
    }
}

/// What a text is to the schedules.
pub(crate) fn schedule(text: &[u8]) -> Reading<Schedule>
    ensures { result ≡ reading_of schedule text.now }
{
    match parted(b'(', text) {
        None => opening(text).unfinished(),
        Some((before, behind)) => match opening(before) {
            Reading::Text(kind) => inner(kind, behind),
            Reading::Front => Reading::Fault,
            Reading::Fault => Reading::Fault,
        },
    }
}

#[tactic(auto, using(crate::proofs::SpellingLemmas::text_can_begin, crate::proofs::SpellingLemmas::front_can_begin, crate::proofs::SpellingLemmas::fault_begins_none))]
/// Whether bytes can begin a schedule.
fn can_begin(front: &[u8]) -> bool
    ensures { result ≡ schedule.can_begin front.now }
{
    match schedule(front) {
        Reading::Text(_) => true,
        Reading::Front => true,
        Reading::Fault => false,
    }
}

#[tactic(auto, using(crate::proofs::SpellingLemmas::bound_first, crate::proofs::SpellingLemmas::fault_found))]
/// The first place of a text, which is no schedule, at which no schedule goes on, or the text's length.
pub(crate) fn first_fault(text: &[u8]) -> usize
    requires { ¬ IsTrue (is_schedule text.now) }
    ensures { IsFirstFault is_schedule text.now result }
{
    // Halves what lies between a front that a schedule begins with and one that none does.
    let mut good = 0;
    let mut bad = text.len() + 1;
    while good + 1 < bad {
        let middle = good + (bad - good) / 2;
        if can_begin(&text[..middle]) {
            good = middle;
        } else {
            bad = middle;
        }
    }
    good
}
