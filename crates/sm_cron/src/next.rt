//! The next moment of a schedule.
ghost use Rattle.std.specs.Prelude.{◌≡◌, ℕ, ◌<◌, ◌≤◌, ◌/◌, pos, IfSome, IfNone};
ghost use Rattle.jiff_core.specs.Date.{epoch_day};
ghost use Rattle.sm_cron.specs.Sets.{has};
ghost use Rattle.sm_cron.specs.Civil.{Civil, Shows, civil_at, is_last_of_month, weekday_at};
ghost use Rattle.sm_cron.specs.Days.{IsFirstOn, IsNoneOn};
ghost use Rattle.sm_cron.specs.Next.{is_day_of, next_of_cron};
ghost use Rattle.sm_base.specs.declared.moment.TheConstants.{LAST_READING};

use crate::schedule::Cron;
use jiff_core::civil::{Date, days_in_month};

/// The seconds of an hour.
const HOUR: u64 = 3_600;

/// The seconds of a day.
const DAY: u64 = 86_400;

/// The days after which the calendar repeats, its weekdays too.
const CYCLE: u64 = 146_097;

/// Whether a number is in a set.
fn has(set: u32, number: u32) -> bool
    requires { number < 32 }
    ensures { result ≡ has set number }
{
    (set >> number) & 1 == 1
}

/// The date of a day, counted from 1 January 1970.
fn date_at(day: u64) -> Date
    requires { day ≤ 2_932_896 }
    ensures shows { Shows result (civil_at day) }
    ensures number { epoch_day result ≡ pos day }
{
    match Date::from_unix_epoch_day(day as i64) {
        Ok(date) => date,
        Err(_) => unreachable!(),
    }
}

/// Whether the day is the last of its month.
#[tactic(auto, using(crate::proofs::CalendarLemmas::last_shown))]
fn is_last_of_month(date: Date) -> bool
    ensures { (civil : Civil) → Shows date civil → result ≡ is_last_of_month civil }
{
    date.day == days_in_month(date.year, date.month)
}

/// The weekday, from 1 for Sunday.
#[tactic(auto, using(crate::proofs::CalendarLemmas::weekday_is))]
fn weekday_of(date: Date) -> u32
    ensures value { (day : ℕ) → epoch_day date ≡ pos day → result ≡ weekday_at day }
    ensures bound { result ≤ 7 }
{
    date.weekday().to_sunday_one_offset() as u32
}

/// Whether a day is one of a schedule's.
#[tactic(auto, unfolding(crate::specs::Next::is_day_of))]
fn is_day_of(cron: &Cron, day: u64) -> bool
    requires { day ≤ 2_932_896 }
    ensures { result ≡ is_day_of cron.now day }
{
    let date = date_at(day);
    has(u32::from(cron.months), u32::from(date.month))
        && (has(cron.days, u32::from(date.day)) || (cron.last_day && is_last_of_month(date)))
        && has(u32::from(cron.weekdays), weekday_of(date))
}

/// The first moment of a schedule on a day, above a moment.
fn first_on(cron: &Cron, day: u64, moment: u64) -> Option<u64>
    requires { day ≤ 2_932_896 }
    ensures found { IfSome result (λ at. IsFirstOn cron.now day moment at) }
    ensures none { IfNone result (IsNoneOn cron.now day moment) }
{
    if !is_day_of(cron, day) {
        return None;
    }
    for hour in 0..24 {
        let begin = day * DAY + hour * HOUR;
        if moment < begin && has(cron.hours, hour as u32) {
            return Some(begin);
        }
    }
    None
}

/// The first moment of a schedule above a moment. Where the calendar's whole round has none there never is one.
#[tactic(auto, using(crate::proofs::DayLemmas::none_today, crate::proofs::DayLemmas::none_more, crate::proofs::DayLemmas::found_on, crate::proofs::DayLemmas::never_found))]
pub(crate) fn next_of(cron: &Cron, moment: u64) -> Option<u64>
    requires { moment ≤ LAST_READING }
    ensures { result ≡ next_of_cron cron.now moment }
{
    let today = moment / DAY;
    for day in today..today + CYCLE + 1 {
        if let Some(found) = first_on(cron, day, moment) {
            return Some(found);
        }
    }
    None
}
