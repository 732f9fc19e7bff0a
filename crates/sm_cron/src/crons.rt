//! Schedules that name hours: `0 <hours> <days> <months> <weekdays> *`.
ghost use Rattle.std.specs.Prelude.{◌≡◌, ◌<◌, ◌^◌, codes};
ghost use Rattle.sm_cron.specs.Languages.{reading_of, word};
ghost use Rattle.sm_cron.specs.Spelling.{cron, cron_from_days, cron_from_hours, cron_from_months, cron_from_weekdays};

use crate::days::Days;
use crate::field::Field;
use crate::fields::{days_field, field_of};
use crate::reading::{Reading, parted, word};
use crate::schedule::Cron;

#[tactic(auto, using(crate::proofs::SpellingLemmas::weekdays_fit))]
/// What follows the months.
fn from_weekdays(hours: u32, days: Days, months: u32, text: &[u8]) -> Reading<Cron>
    requires { months < 2 ^ 16 }
    ensures { result ≡ reading_of (cron_from_weekdays hours days months) text.now }
{
    match parted(b' ', text) {
        None => field_of(Field::Weekdays, text).unfinished(),
        Some((before, behind)) => match field_of(Field::Weekdays, before) {
            Reading::Text(weekdays) => {
                let cron = Cron {
                    hours,
                    days: days.set,
                    last_day: days.last,
                    months: months as u16,
                    weekdays: weekdays as u8,
                };
                word(b"*", cron, behind)
            }
            Reading::Front => Reading::Fault,
            Reading::Fault => Reading::Fault,
        },
    }
}

#[tactic(auto, using(crate::proofs::SpellingLemmas::months_fit))]
/// What follows the days.
fn from_months(hours: u32, days: Days, text: &[u8]) -> Reading<Cron>
    ensures { result ≡ reading_of (cron_from_months hours days) text.now }
{
    match parted(b' ', text) {
        None => field_of(Field::Months, text).unfinished(),
        Some((before, behind)) => match field_of(Field::Months, before) {
            Reading::Text(months) => from_weekdays(hours, days, months, behind),
            Reading::Front => Reading::Fault,
            Reading::Fault => Reading::Fault,
        },
    }
}

/// What follows the hours.
fn from_days(hours: u32, text: &[u8]) -> Reading<Cron>
    ensures { result ≡ reading_of (cron_from_days hours) text.now }
{
    match parted(b' ', text) {
        None => days_field(text).unfinished(),
        Some((before, behind)) => match days_field(before) {
            Reading::Text(days) => from_months(hours, days, behind),
            Reading::Front => Reading::Fault,
            Reading::Fault => Reading::Fault,
        },
    }
}

/// What follows the minute.
fn from_hours(text: &[u8]) -> Reading<Cron>
    ensures { result ≡ reading_of cron_from_hours text.now }
{
    match parted(b' ', text) {
        None => field_of(Field::Hours, text).unfinished(),
        Some((before, behind)) => match field_of(Field::Hours, before) {
            Reading::Text(hours) => from_days(hours, behind),
            Reading::Front => Reading::Fault,
            Reading::Fault => Reading::Fault,
        },
    }
}

/// The minute, which is 0.
fn minute(text: &[u8]) -> Reading<u32>
    ensures { result ≡ reading_of (word (codes "0") 0) text.now }
{
    word(b"0", 0, text)
}

/// What a text is to the schedules that name hours.
pub(crate) fn cron(text: &[u8]) -> Reading<Cron>
    ensures { result ≡ reading_of cron text.now }
{
    match parted(b' ', text) {
        None => minute(text).unfinished(),
        Some((before, behind)) => match minute(before) {
            Reading::Text(_) => from_hours(behind),
            Reading::Front => Reading::Fault,
            Reading::Fault => Reading::Fault,
        },
    }
}
