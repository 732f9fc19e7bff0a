//! Schedules.
ghost use Rattle.std.specs.Prelude.{◌≡◌, ◌≤◌};
ghost use Rattle.sm_base.specs.declared.moment.TheConstants.{LAST_READING};
ghost use Rattle.sm_base.specs.declared.limits.TheConstants.{LAST_ROTATION_DATE};
ghost use Rattle.sm_cron.specs.Spelling.{is_schedule_expression};

use crate::next::next_of;
use crate::reading::Reading;
use crate::spelling::{first_fault, schedule};
use sm_base::limits::SCHEDULE_LIMIT;
use std::error::Error;
use std::fmt;

/// When a secret is rotated.
#[derive(Clone, Copy, Debug, PartialEq, Eq)]
pub enum Schedule {
    /// So many seconds after the last rotation.
    Rate(u64),
    /// At the hours that the sets name.
    Cron(Cron),
}

/// The hours, days, months and weekdays of a schedule. Bit k of a set stands for the number k.
#[derive(Clone, Copy, Debug, PartialEq, Eq)]
pub struct Cron {
    /// From 0 to 23, in UTC.
    pub hours: u32,
    /// From 1 to 31.
    pub days: u32,
    /// Whether the last day of each month is meant, whatever its number is.
    pub last_day: bool,
    /// From 1 for January to 12.
    pub months: u16,
    /// From 1 for Sunday to 7.
    pub weekdays: u8,
}

impl Schedule {
    ghost use Rattle.std.specs.Prelude.{IfSome, IfNone, IfOk, IfErr};
    ghost use Rattle.std.specs.Result.{result_ok};
    ghost use Rattle.sm_cron.specs.Spelling.{schedule_of, IsRefused};
    ghost use Rattle.sm_cron.specs.Next.{next_of, IsNext, IsNever, IsInReach};

    #[tactic(auto, using(crate::proofs::SpellingLemmas::schedule_said, crate::proofs::SpellingLemmas::schedule_in_reach, crate::proofs::SpellingLemmas::front_not_said, crate::proofs::SpellingLemmas::fault_not_said, crate::proofs::SpellingLemmas::unspelled))]
    /// Reads a schedule.
    pub fn read(text: &[u8]) -> Result<Schedule, ScheduleRefused>
        ensures value { result_ok result ≡ schedule_of text.now }
        ensures refused { IfErr result (IsRefused text.now) }
        ensures reach { IfOk result IsInReach }
    {
        match schedule(text) {
            Reading::Text(schedule) => Ok(schedule),
            Reading::Front => Err(ScheduleRefused::Spelling(first_fault(text))),
            Reading::Fault => Err(ScheduleRefused::Spelling(first_fault(text))),
        }
    }

    /// The first moment of the schedule above a moment. There is none where no later moment is the schedule's.
    pub fn next(&self, moment: u64) -> Option<u64>
        requires moment { moment ≤ LAST_READING }
        requires rate { IsInReach self.now }
        ensures exact { result ≡ next_of self.now moment }
        ensures found { IfSome result (λ at. IsNext self.now moment at) }
        ensures never { IfNone result (IsNever self.now moment) }
        ensures within { IfSome result (λ at. at ≤ LAST_ROTATION_DATE) }
    {
        match self {
            Schedule::Rate(seconds) => Some(moment + *seconds),
            Schedule::Cron(cron) => next_of(cron, moment),
        }
    }
}

/// Whether a text is a schedule expression: the spelling of a schedule, of at most 256 bytes. No longer text is read.
pub fn is_schedule_expression(text: &[u8]) -> bool
    ensures { result ≡ is_schedule_expression text.now }
{
    text.len() <= SCHEDULE_LIMIT && Schedule::read(text).is_ok()
}

/// Why a text was not read.
#[derive(Clone, Copy, Debug, PartialEq, Eq)]
pub enum ScheduleRefused {
    /// It is not in the spelling. The number is the first place, in bytes, at which no continuation is, or the
    /// text's length.
    Spelling(usize),
}

impl fmt::Display for ScheduleRefused {
    fn fmt<W: fmt::Write>(&self, f: &mut fmt::Formatter<W>) -> fmt::Result {
        match self {
            ScheduleRefused::Spelling(place) => write!(f, "not in the spelling at byte {place}"),
        }
    }
}

impl Error for ScheduleRefused {}
