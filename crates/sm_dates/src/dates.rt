//! Moments so many days on, and the dates of moments.
ghost use Rattle.std.specs.Prelude.{◌≡◌, ◌≤◌, ◌/◌, pos, IfOk, IfSome, List, ℕ};
ghost use Rattle.sm_base.specs.declared.moment.TheConstants.{LAST_READING};
ghost use Rattle.sm_base.specs.declared.limits.TheConstants.{DAYS_LIMIT, LAST_DATE};
ghost use Rattle.jiff.specs.Words.{epoch_day};
ghost use Rattle.sm_cron.specs.Next.{IsInReach};
ghost use Rattle.sm_dates.specs.Days.{days_after, kept_schedule, rotation_after, IsDateOf};

use jiff::Timestamp;
use jiff::civil::Date;
use jiff::tz::Offset;
use sm_base::{Moment, NoMemory, Text};
use sm_cron::Schedule;
use sm_model::Rotation;
use std::alloc::Global;

/// The seconds of a day.
const DAY: u64 = 86_400;

/// The moment so many days after a moment.
fn days_after(moment: Moment, days: u32) -> Moment
    requires { moment.0 ≤ LAST_READING }
    ensures { result ≡ days_after moment days }
{
    Moment(moment.0 + DAY * u64::from(days))
}

/// The end of a window of days that begins at a moment.
pub fn window_end(moment: Moment, days: u32) -> Moment
    requires moment_in { moment.0 ≤ LAST_READING }
    requires days_in { days ≤ DAYS_LIMIT }
    ensures { result ≡ days_after moment days }
{
    days_after(moment, days)
}

/// The schedule that a rotation keeps, where the text that it keeps is a spelling.
fn kept_schedule(rotation: &Rotation) -> Option<Schedule>
    ensures kept { result ≡ kept_schedule rotation.now }
    ensures reach { IfSome result IsInReach }
{
    match &rotation.schedule {
        Some(text) => match Schedule::read(text.as_bytes()) {
            Ok(schedule) => Some(schedule),
            Err(_) => None,
        },
        None => None,
    }
}

/// When a secret is rotated next after a rotation at a moment: by the schedule that it keeps, else by the days. It is
/// not rotated again where it keeps neither, or where its schedule never comes.
pub fn next_rotation(rotation: &Rotation, moment: Moment) -> Option<Moment>
    requires { moment.0 ≤ LAST_READING }
    ensures { result ≡ rotation_after rotation.now moment }
{
    match kept_schedule(rotation) {
        Some(schedule) => match schedule.next(moment.0) {
            Some(second) => Some(Moment(second)),
            None => None,
        },
        None => match rotation.days {
            Some(days) => Some(days_after(moment, days)),
            None => None,
        },
    }
}

/// The date of a moment in UTC.
fn date_of(moment: Moment) -> Date
    requires { moment.0 ≤ LAST_DATE }
    ensures { epoch_day result ≡ pos (moment.0 / 86_400) }
{
    match Timestamp::from_second(moment.0 as i64) {
        Ok(timestamp) => Offset::UTC.to_datetime(timestamp).date(),
        Err(_) => unreachable!(),
    }
}

/// The date of a moment in UTC as text, such as `2023-11-14`.
pub fn show(alloc: Global, moment: Moment) -> Result<Text, NoMemory>
    requires { moment.0 ≤ LAST_DATE }
    ensures date { IfOk result (IsDateOf moment) }
    ensures only { IfOk result (λ text. (other : List ℕ) → IsDateOf moment other → other ≡ text) }
{
    let date = date_of(moment);
    Ok(Text::new(format!(in alloc; "{date}")?))
}
