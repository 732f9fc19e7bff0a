//! The next work of a rotator (AWS Secrets Manager User Guide, "Lambda rotation functions").
ghost use Rattle.std.specs.Prelude.{◌≡◌, ◌≤◌, ◌+◌, ◌++◌, ◌∷◌, [], IsSomeAnd, IfOk, OnOk, OnErr};
ghost use Rattle.sm_base.specs.declared.moment.TheConstants.{LAST_READING};
ghost use Rattle.sm_claims.specs.Ready.{first_ready};
ghost use Rattle.sm_claims.specs.LiveClaims.{live_claims_with};
ghost use Rattle.sm_claims.specs.Works.{IsWorkOf};
ghost use Rattle.sm_core.specs.Histories.{later};
ghost use Rattle.sm_model.specs.declared.entry.Mark.TheVariants as mark;
ghost use Rattle.sm_account.specs.AccountState.{Kept, history_in};
ghost use Rattle.sm_account.specs.CallOutcomes.{Leaves};
ghost use Rattle.sm_account.specs.Growing.{SameButRoom};
ghost use Rattle.sm_account.specs.NextWork.{NextAs, claim_by, next_by};

use crate::account_state::AccountState;
use crate::told::Told;
use sm_claims::{Claim, add_claim, ready_work};
use sm_disk::Disk;
use sm_model::{Copied, Moment, NoMemory};
use sm_rotator::Work;
use std::alloc::Global;

/// What there is to do for a rotator.
#[derive(Drop)]
pub enum NextWork {
    /// This step, which is claimed now.
    Work(Work),
    None,
    Memory,
}

/// Claims the first step of a rotation that is ready at a reading of the clock, in order of the secrets' creation, and
/// gives its work.
pub fn next_work<D: Disk>(inner: &mut AccountState<D>, seat: u32, now: Moment) -> NextWork
    requires kept { Kept D.Disk inner.old }
    requires bound { now.0 ≤ LAST_READING }
    ensures kept { Kept D.Disk inner.new }
    ensures next { NextAs result
        (first_ready (history_in inner.old) (later inner.old.last now) inner.old.table.secrets) }
    ensures leaves { Leaves D.Disk inner.old inner.new seat (next_by result (later inner.old.last now)) }
{
    let moment = Moment(inner.last.0.max(now.0));
    match ready_work(inner.alloc, &inner.table, inner.claims.as_slice(), moment) {
        Ok(ready) => match ready {
            Some(work) => take_up(inner, seat, work, moment),
            None => NextWork::None,
        },
        Err(NoMemory) => NextWork::Memory,
    }
}

/// Claims the step of a work that is ready.
fn take_up<D: Disk>(inner: &mut AccountState<D>, seat: u32, work: Work, moment: Moment) -> NextWork
    requires kept { Kept D.Disk inner.old }
    requires ready { IsSomeAnd (first_ready (history_in inner.old) moment inner.old.table.secrets)
        (λ row. IsWorkOf row work) }
    ensures kept { Kept D.Disk inner.new }
    ensures next { NextAs result (first_ready (history_in inner.old) moment inner.old.table.secrets) }
    ensures leaves { Leaves D.Disk inner.old inner.new seat (next_by result moment) }
{
    match claim(inner, seat, &work, moment) {
        Ok(()) => NextWork::Work(work),
        Err(NoMemory) => NextWork::Memory,
    }
}

/// Adds a claim of the work's step to the history, and to the claims that stand.
fn claim<D: Disk>(
    inner: &mut AccountState<D>,
    seat: u32,
    work: &Work,
    moment: Moment,
) -> Result<(), NoMemory>
    ensures claimed { OnOk result (history_in inner.new
        ≡ history_in inner.old ++ (seat, mark.Claim work.now.arn work.now.at moment) ∷ []) }
    ensures counted { OnOk result (inner.new.marks ≡ inner.old.marks + 1) }
    ensures added { OnOk result (inner.new.claims.items
        ≡ live_claims_with inner.old.claims.items (claim_by work.now moment) inner.old.last) }
    ensures same { OnErr result (SameButRoom inner.old inner.new) }
    ensures rest { inner.new ≡ record inner.old {
      claims = inner.new.claims;
      told = inner.new.told;
      marks = inner.new.marks;
    } }
{
    let claim = claim_by(inner.alloc, work, moment)?;
    if inner.marks == u64::MAX {
        return Err(NoMemory);
    }
    inner.claims.reserve(1)?;
    inner.told = Told::claimed(&inner.told, &seat, &claim);
    inner.marks += 1;
    let from = inner.last;
    add_claim(&mut inner.claims, claim, from);
    Ok(())
}

/// A claim of the work's step.
fn claim_by(alloc: Global, work: &Work, moment: Moment) -> Result<Claim, NoMemory>
    ensures { IfOk result (λ claim. claim ≡ claim_by work.now moment) }
{
    let arn = work.arn.copy(alloc)?;
    Ok(Claim {
        arn,
        at: work.at.copy(alloc)?,
        made: moment,
    })
}
