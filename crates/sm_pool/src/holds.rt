//! What a rotation turn does while it holds the account.
ghost use Rattle.std.specs.Prelude.{◌≡◌, ◌≤◌, ◌∷◌, [], ◌⊎◌, IsSome};
ghost use Rattle.std.specs.Io.KnownBytes.{append_known};
ghost use Rattle.sm_base.specs.Faults.{Rose};
ghost use Rattle.sm_base.specs.declared.moment.TheConstants.{LAST_READING};
ghost use Rattle.sm_claims.specs.Due.{has_due};
ghost use Rattle.sm_core.specs.Histories.{later};
ghost use Rattle.sm_account.specs.Accounts.{base, disk, failed, history, rows, state, SameOrigin};
ghost use Rattle.sm_account.specs.SeatTraces.{NoGap};
ghost use Rattle.sm_pool.specs.Alone.{OnDisk};
ghost use Rattle.sm_pool.specs.Ends.{due_ends, report_ends};
ghost use Rattle.sm_pool.specs.Found.{due_or_nothing};
ghost use Rattle.sm_pool.specs.Holds.{LookHeld, ReportHeld, StartHeld};

use sm_account::{Account, NextWork, Reported, StartedDue};
use sm_disk::Disk;
use sm_io::Clock;
use sm_model::Moment;
use sm_rotator::{Rotator, Verdict, Work};

/// What there is to do.
#[derive(Drop)]
pub enum Found {
    /// This step, which is claimed now.
    Work(Work),
    /// Nothing is ready, but some rotation is due.
    Due,
    Nothing,
    Memory,
}

/// What there is to do at a reading of the clock.
#[derive(Drop)]
pub struct Looked {
    pub now: Moment,
    pub found: Found,
}

/// What became of a due rotation at a reading of the clock.
#[derive(Drop)]
pub struct StartedAt {
    pub now: Moment,
    pub started: StartedDue,
}

/// What became of a verdict at a reading of the clock.
#[derive(Drop)]
pub struct ReportedAt {
    pub now: Moment,
    pub reported: Reported,
}

/// Reads the clock, and claims the first step that is ready. Where none is, it looks whether some rotation is due.
pub fn look<D: Disk, R: Rotator, C: Clock>(
    account: &mut Account<D, R>,
    seat: u32,
    clock: &mut C,
) -> Looked
    ensures told { C.readings clock.new ≡ append_known (C.readings clock.old) (result.now.0 ∷ []) }
    ensures looks { LookHeld (base account.old) NoGap seat (history account.old) (history account.new) result.now
        result.found }
    ensures origin { SameOrigin account.old account.new }
    ensures unsure { IsSome (failed account.new) → IsSome (failed account.old) }
    ensures disk_later { D.faults (disk account.old) ≤ D.faults (disk account.new) }
{
    let now = clock.now();
    let found = match account.next_work(seat, now) {
        NextWork::Work(work) => Found::Work(work),
        NextWork::None => due_or_nothing(account, now),
        NextWork::Memory => Found::Memory,
    };
    Looked { now, found }
}

/// Whether some rotation is due, where no step is ready.
fn due_or_nothing<D: Disk, R: Rotator>(account: &Account<D, R>, now: Moment) -> Found
    requires { now.0 ≤ LAST_READING }
    ensures { result ≡ due_or_nothing (has_due (rows account.now).secrets (later (state account.now).last now)) }
{
    if account.has_due(now) {
        Found::Due
    } else {
        Found::Nothing
    }
}

/// Reads the clock, and starts the first rotation that is due for the token of these random bytes.
pub fn start<D: Disk, R: Rotator, C: Clock>(
    account: &mut Account<D, R>,
    seat: u32,
    clock: &mut C,
    drawn: &[u8; 16],
) -> StartedAt
    ensures told { C.readings clock.new ≡ append_known (C.readings clock.old) (result.now.0 ∷ []) }
    ensures starts { StartHeld (base account.old) NoGap seat (history account.old) (history account.new) result.now
        drawn.now result.started }
    ensures origin { SameOrigin account.old account.new }
    ensures unsure { IsSome (failed account.new) → IsSome (failed account.old)
        ⊎ Rose (D.faults (disk account.old)) (D.faults (disk account.new)) }
    ensures disk { OnDisk (due_ends result.started) (Rose (D.faults (disk account.old))
        (D.faults (disk account.new))) }
    ensures disk_later { D.faults (disk account.old) ≤ D.faults (disk account.new) }
{
    let now = clock.now();
    let started = account.start_due(seat, now, drawn);
    StartedAt { now, started }
}

/// Reads the clock, and reports a verdict.
pub fn report<D: Disk, R: Rotator, C: Clock>(
    account: &mut Account<D, R>,
    seat: u32,
    clock: &mut C,
    verdict: &Verdict<R>,
) -> ReportedAt
    ensures told { C.readings clock.new ≡ append_known (C.readings clock.old) (result.now.0 ∷ []) }
    ensures reports { ReportHeld (base account.old) NoGap seat (history account.old) (history account.new) result.now
        verdict.now.work verdict.now.answer result.reported }
    ensures origin { SameOrigin account.old account.new }
    ensures unsure { IsSome (failed account.new) → IsSome (failed account.old)
        ⊎ Rose (D.faults (disk account.old)) (D.faults (disk account.new)) }
    ensures disk { OnDisk (report_ends verdict.now.work result.reported) (Rose (D.faults (disk account.old))
        (D.faults (disk account.new))) }
    ensures disk_later { D.faults (disk account.old) ≤ D.faults (disk account.new) }
{
    let now = clock.now();
    let reported = account.report(seat, now, verdict);
    ReportedAt { now, reported }
}
