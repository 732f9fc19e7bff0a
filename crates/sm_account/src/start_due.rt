//! The start of a rotation that is due (AWS Secrets Manager User Guide, "Rotation schedules").
ghost use Rattle.std.specs.Prelude.{◌≡◌, ◌≤◌, IfOk, option_map};
ghost use Rattle.sm_base.specs.Drawn.{drawn_token};
ghost use Rattle.sm_base.specs.declared.moment.TheConstants.{LAST_READING};
ghost use Rattle.sm_claims.specs.Due.{first_due};
ghost use Rattle.sm_account.specs.AccountState.{Kept, state_in};
ghost use Rattle.sm_account.specs.CallOutcomes.{Leaves};
ghost use Rattle.sm_account.specs.Efforts.{effort_within};
ghost use Rattle.sm_account.specs.Handling.{MayEnter};
ghost use Rattle.sm_account.specs.Limits.{passed_at};
ghost use Rattle.sm_account.specs.StartDue.{Starts, StartsAs, start_at, start_for, started_by};

use crate::account_state::AccountState;
use crate::entering::{Entered, enter_legal};
use sm_claims::first_due;
use sm_disk::Disk;
use sm_model::{Act, Arn, Bytes, Copied, Entry, Moment, NoMemory, SecretRow, Text, Token};
use sm_table::Table;
use std::alloc::Global;

/// What became of the rotations that are due.
#[derive(Drop)]
pub enum StartedDue {
    /// That of the secret with this ARN was started.
    Started(Arn),
    None,
    /// The entry would pass this limit.
    Limit(u64),
    /// The disk failed where the entry was to be written.
    DiskFault,
    Memory,
}

/// A start of a rotation: the secret's ARN, and the entry.
#[derive(Drop)]
pub struct DueStart {
    pub arn: Arn,
    pub entry: Entry,
}

/// Starts the first rotation that is due at a reading of the clock for the token of the random bytes, in order of the
/// secrets' creation.
pub fn start_due<D: Disk>(
    inner: &mut AccountState<D>,
    seat: u32,
    now: Moment,
    drawn: &[u8; 16],
) -> StartedDue
    requires kept { Kept D.Disk inner.old }
    requires bound { now.0 ≤ LAST_READING }
    ensures kept { Kept D.Disk inner.new }
    ensures starts { StartsAs result (start_at (state_in inner.old) now drawn.now) }
    ensures leaves { Leaves D.Disk inner.old inner.new seat
        (started_by result (start_at (state_in inner.old) now drawn.now)) }
{
    let moment = Moment(inner.last.0.max(now.0));
    match due_start(inner.alloc, &inner.table, moment, drawn) {
        Ok(start) => match start {
            Some(start) => start_with(inner, seat, start),
            None => StartedDue::None,
        },
        Err(NoMemory) => StartedDue::Memory,
    }
}

/// Makes the entry of a start.
fn start_with<D: Disk>(inner: &mut AccountState<D>, seat: u32, start: DueStart) -> StartedDue
    requires kept { Kept D.Disk inner.old }
    requires may { MayEnter inner.old start.entry }
    requires its { Starts start.arn start.entry }
    ensures kept { Kept D.Disk inner.new }
    ensures starts { StartsAs result (effort_within (passed_at (state_in inner.old) start.entry) start.entry) }
    ensures leaves { Leaves D.Disk inner.old inner.new seat
        (started_by result (effort_within (passed_at (state_in inner.old) start.entry) start.entry)) }
{
    let DueStart { arn, entry } = start;
    match enter_legal(inner, seat, entry) {
        Ok(entered) => match entered {
            Entered::Made => StartedDue::Started(arn),
            Entered::Over(passed) => StartedDue::Limit(passed.limit),
            Entered::DiskFault => StartedDue::DiskFault,
        },
        Err(NoMemory) => StartedDue::Memory,
    }
}

/// The start of the first rotation that is due.
fn due_start(
    alloc: Global,
    table: &Table,
    moment: Moment,
    drawn: &[u8; 16],
) -> Result<Option<DueStart>, NoMemory>
    requires { moment.0 ≤ LAST_READING }
    ensures { IfOk result (λ start. start ≡ option_map (start_for moment drawn.now)
        (first_due table.now.secrets moment (drawn_token drawn.now))) }
{
    let token = Token::drawn(alloc, drawn)?;
    match first_due(table, moment, &token) {
        Some(row) => Ok(Some(start_for(alloc, row, moment, drawn)?)),
        None => Ok(None),
    }
}

/// The start of the rotation of this secret.
fn start_for(
    alloc: Global,
    row: &SecretRow,
    moment: Moment,
    drawn: &[u8; 16],
) -> Result<DueStart, NoMemory>
    ensures { IfOk result (λ start. start ≡ start_for moment drawn.now row.now) }
{
    let arn = row.arn.copy(alloc)?;
    let entry = Entry {
        moment,
        caller: Text::fixed(""),
        by: Text::fixed(""),
        drawn: Bytes::from_slice(alloc, drawn)?,
        act: Act::Begun(row.arn.copy(alloc)?),
        prunes: true,
    };
    Ok(DueStart { arn, entry })
}
