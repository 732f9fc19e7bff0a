//! The holds of a rotation turn of an account that stands behind a lock.
ghost use Rattle.std.specs.Prelude.{◌≡◌, ◌∷◌, []};
ghost use Rattle.std.specs.Io.KnownBytes.{append_known};
ghost use Rattle.sm_account.specs.Accounts.{base};
ghost use Rattle.sm_lock.specs.Handles.{built_with, number, seen, IsIn};
ghost use Rattle.sm_lock.specs.Story.{Grows};
ghost use Rattle.sm_pool.specs.Holds.{LookHeld, ReportHeld, StartHeld};

use crate::holds::{Looked, ReportedAt, StartedAt, look, report, start};
use sm_account::Account;
use sm_disk::Disk;
use sm_io::Clock;
use sm_lock::{Gate, Pass, Storied};
use sm_rotator::{Rotator, Verdict};
use std::sync::Wait;

/// The pass again, and what there is to do.
pub(crate) struct LookBehind<A: Storied> {
    pub pass: Pass<A>,
    pub looked: Looked,
}

/// The pass again, and what became of a due rotation.
pub(crate) struct StartBehind<A: Storied> {
    pub pass: Pass<A>,
    pub begun: StartedAt,
}

/// The pass again, and what became of a verdict.
pub(crate) struct ReportBehind<A: Storied> {
    pub pass: Pass<A>,
    pub told: ReportedAt,
}

/// Waits for the account and looks what there is to do.
pub(crate) fn look_behind<C: Clock, D: Disk, R: Rotator, H: Wait>(
    rt: &H,
    gate: &Gate<Account<D, R>>,
    pass: Pass<Account<D, R>>,
    clock: &mut C,
) -> LookBehind<Account<D, R>>
    requires { IsIn gate.now pass }
    ensures gate { IsIn gate.now result.pass }
    ensures number { number result.pass ≡ number pass }
    ensures told { C.readings clock.new ≡ append_known (C.readings clock.old) (result.looked.now.0 ∷ []) }
    ensures looks { LookHeld (base (built_with gate.now)) (Grows (number pass ∷ [])) (number pass) (seen pass)
        (seen result.pass) result.looked.now result.looked.found }
{
    let seat = pass.seat();
    let mut held = gate.enter(rt, pass);
    let looked = look(held.value(), seat, clock);
    LookBehind {
        pass: gate.leave(held),
        looked,
    }
}

/// Waits for the account, and starts the first rotation that is due for the token of these random bytes.
pub(crate) fn start_behind<C: Clock, D: Disk, R: Rotator, H: Wait>(
    rt: &H,
    gate: &Gate<Account<D, R>>,
    pass: Pass<Account<D, R>>,
    clock: &mut C,
    drawn: &[u8; 16],
) -> StartBehind<Account<D, R>>
    requires { IsIn gate.now pass }
    ensures gate { IsIn gate.now result.pass }
    ensures number { number result.pass ≡ number pass }
    ensures told { C.readings clock.new ≡ append_known (C.readings clock.old) (result.begun.now.0 ∷ []) }
    ensures starts { StartHeld (base (built_with gate.now)) (Grows (number pass ∷ [])) (number pass) (seen pass)
        (seen result.pass) result.begun.now drawn.now result.begun.started }
{
    let seat = pass.seat();
    let mut held = gate.enter(rt, pass);
    let begun = start(held.value(), seat, clock, drawn);
    StartBehind {
        pass: gate.leave(held),
        begun,
    }
}

/// Waits for the account, and reports a verdict.
pub(crate) fn report_behind<C: Clock, D: Disk, R: Rotator, H: Wait>(
    rt: &H,
    gate: &Gate<Account<D, R>>,
    pass: Pass<Account<D, R>>,
    clock: &mut C,
    verdict: &Verdict<R>,
) -> ReportBehind<Account<D, R>>
    requires { IsIn gate.now pass }
    ensures gate { IsIn gate.now result.pass }
    ensures number { number result.pass ≡ number pass }
    ensures told { C.readings clock.new ≡ append_known (C.readings clock.old) (result.told.now.0 ∷ []) }
    ensures reports { ReportHeld (base (built_with gate.now)) (Grows (number pass ∷ [])) (number pass) (seen pass)
        (seen result.pass) result.told.now verdict.now.work verdict.now.answer result.told.reported }
{
    let seat = pass.seat();
    let mut held = gate.enter(rt, pass);
    let told = report(held.value(), seat, clock, verdict);
    ReportBehind {
        pass: gate.leave(held),
        told,
    }
}
