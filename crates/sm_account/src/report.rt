//! Reports of what a rotator answered to its work (AWS Secrets Manager User Guide, "Lambda rotation functions").
ghost use Rattle.std.specs.Prelude.{◌≡◌, ◌≤◌, IfOk, option_copied};
ghost use Rattle.sm_base.specs.declared.moment.TheConstants.{LAST_READING};
ghost use Rattle.sm_table.specs.Found.{found_arn};
ghost use Rattle.sm_account.specs.AccountState.{Kept, state_in};
ghost use Rattle.sm_account.specs.CallOutcomes.{Leaves};
ghost use Rattle.sm_account.specs.Efforts.{effort_within};
ghost use Rattle.sm_account.specs.Handling.{MayEnter};
ghost use Rattle.sm_account.specs.Limits.{passed_at};
ghost use Rattle.sm_account.specs.Report.{IsHeldAs, ReportsAs, entered_answer, report_at, reported_by, reported_entry};

use crate::account_state::AccountState;
use crate::entering::{Entered, enter_legal};
use sm_base::limits::VALUE_LIMIT;
use sm_claims::{is_fresh, step_of};
use sm_disk::Disk;
use sm_model::{Act, Answer, At, Bytes, Copied, Entry, Moment, NoMemory, Text};
use sm_rotator::Work;
use sm_table::Table;
use std::alloc::Global;

/// What became of a report.
#[derive(Drop)]
pub enum Reported {
    /// The answer was entered, and the job moved on.
    Moved,
    /// The verdict is on a step that is past, or on a secret or a version that is gone. This is the step that the
    /// secret's job is at.
    Stale(Option<At>),
    /// The entry would pass this limit.
    Limit(u64),
    /// The disk failed where the entry was to be written.
    DiskFault,
    Memory,
}

/// Whether a verdict still holds.
#[derive(Drop)]
pub enum Freshness {
    Fresh,
    /// It does not. This is the step that the secret's job is at.
    Stale(Option<At>),
}

/// Enters an answer to a work at a reading of the clock, where it still holds.
pub fn report<D: Disk>(
    inner: &mut AccountState<D>,
    seat: u32,
    now: Moment,
    work: &Work,
    answer: &Answer,
) -> Reported
    requires kept { Kept D.Disk inner.old }
    requires bound { now.0 ≤ LAST_READING }
    ensures kept { Kept D.Disk inner.new }
    ensures reports { ReportsAs result (report_at (state_in inner.old) now work.now answer.now) }
    ensures leaves { Leaves D.Disk inner.old inner.new seat
        (reported_by result (report_at (state_in inner.old) now work.now answer.now)) }
{
    let moment = Moment(inner.last.0.max(now.0));
    match freshness_of(inner.alloc, &inner.table, moment, work) {
        Ok(freshness) => match freshness {
            Freshness::Fresh => move_on(inner, seat, moment, work, answer),
            Freshness::Stale(at) => Reported::Stale(at),
        },
        Err(NoMemory) => Reported::Memory,
    }
}

/// Whether a verdict on the work holds at the moment.
fn freshness_of(
    alloc: Global,
    table: &Table,
    moment: Moment,
    work: &Work,
) -> Result<Freshness, NoMemory>
    ensures { IfOk result (IsHeldAs (found_arn table.now moment work.now.arn) work.now) }
{
    let row = table.find_arn(&work.arn, moment);
    if is_fresh(row, work) {
        Ok(Freshness::Fresh)
    } else {
        Ok(Freshness::Stale(step_of(alloc, row)?))
    }
}

/// Makes the entry of an answer that holds.
fn move_on<D: Disk>(
    inner: &mut AccountState<D>,
    seat: u32,
    moment: Moment,
    work: &Work,
    answer: &Answer,
) -> Reported
    requires kept { Kept D.Disk inner.old }
    requires may { MayEnter inner.old (reported_entry moment work.now answer.now) }
    ensures kept { Kept D.Disk inner.new }
    ensures reports { ReportsAs result
        (effort_within (passed_at (state_in inner.old) (reported_entry moment work.now answer.now))
        (reported_entry moment work.now answer.now)) }
    ensures leaves { Leaves D.Disk inner.old inner.new seat (reported_by result
        (effort_within (passed_at (state_in inner.old) (reported_entry moment work.now answer.now))
        (reported_entry moment work.now answer.now))) }
{
    match reported_entry(inner.alloc, moment, work, answer) {
        Ok(entry) => report_entry(inner, seat, entry),
        Err(NoMemory) => Reported::Memory,
    }
}

/// Makes the entry of an answer.
fn report_entry<D: Disk>(inner: &mut AccountState<D>, seat: u32, entry: Entry) -> Reported
    requires kept { Kept D.Disk inner.old }
    requires may { MayEnter inner.old entry }
    ensures kept { Kept D.Disk inner.new }
    ensures reports { ReportsAs result (effort_within (passed_at (state_in inner.old) entry) entry) }
    ensures leaves { Leaves D.Disk inner.old inner.new seat
        (reported_by result (effort_within (passed_at (state_in inner.old) entry) entry)) }
{
    match enter_legal(inner, seat, entry) {
        Ok(entered) => match entered {
            Entered::Made => Reported::Moved,
            Entered::Over(passed) => Reported::Limit(passed.limit),
            Entered::DiskFault => Reported::DiskFault,
        },
        Err(NoMemory) => Reported::Memory,
    }
}

/// The entry of an answer to the work.
fn reported_entry(
    alloc: Global,
    moment: Moment,
    work: &Work,
    answer: &Answer,
) -> Result<Entry, NoMemory>
    ensures { IfOk result (λ entry. entry ≡ reported_entry moment work.now answer.now) }
{
    let arn = work.arn.copy(alloc)?;
    let at = work.at.copy(alloc)?;
    let answer = entered_answer(alloc, answer)?;
    Ok(Entry {
        moment,
        caller: Text::fixed(""),
        by: Text::fixed(""),
        drawn: Bytes::empty(alloc),
        act: Act::Reported(arn, at, answer),
        prunes: true,
    })
}

/// The answer as it is entered: a value that is too large counts as a failure.
fn entered_answer(alloc: Global, answer: &Answer) -> Result<Answer, NoMemory>
    ensures { IfOk result (λ entered. entered ≡ entered_answer answer.now) }
{
    match answer {
        Answer::Value(value) => {
            if value.len() <= VALUE_LIMIT {
                Ok(Answer::Value(value.copy(alloc)?))
            } else {
                Ok(Answer::Failed)
            }
        }
        Answer::Yes => Ok(Answer::Yes),
        Answer::No => Ok(Answer::No),
        Answer::Failed => Ok(Answer::Failed),
    }
}
