//! Frames that are taken.
ghost use Rattle.std.specs.Prelude.{◌≡◌, ◌+◌, ◌^◌, ◌<◌, ◌≤◌, ◌∷◌, [], ◌↔◌, IfOk, IsTrue, length};
ghost use Rattle.sm_base.specs.declared.moment.TheConstants.{LAST_READING};
ghost use Rattle.sm_core.specs.Histories.{InTime};
ghost use Rattle.sm_replica.specs.Taking.{Follows, MayStand, Stands, TakesEntries, TakesRows};

use crate::replica::Taken;
use sm_base_check::is_sound;
use sm_model::{Entry, NoMemory};
use sm_record::Base;
use sm_recovery::{Refusal, ReplayState, Stopped};
use std::alloc::Global;

/// Follows one entry, which stands behind so many in its frame. No secret is copied.
fn follow_one(alloc: Global, replayed: &mut ReplayState, passed: u64, entry: &Entry) -> Taken
    requires timely { entry.now.moment.0 ≤ LAST_READING }
    requires counted { replayed.old.entries < 2 ^ 64 }
    ensures { Follows replayed.old passed (entry.now ∷ []) result replayed.new }
{
    match replayed.follow(alloc, entry) {
        Ok(()) => Taken::At(replayed.entries()),
        Err(Refusal::Illegal) => Taken::Broken(passed),
        Err(Refusal::Memory) => Taken::Memory,
    }
}

/// A copy of what stands, which has the values of the secrets in common with it.
fn copy_of(alloc: Global, replayed: &ReplayState) -> Result<ReplayState, NoMemory>
    ensures { IfOk result (λ copy. copy ≡ replayed.now) }
{
    let base = replayed.base()?;
    ReplayState::of(alloc, &base)
}

/// Follows entries, which stand behind so many in their frame, all of them or none: they are followed on a copy.
fn follow_all(alloc: Global, replayed: &mut ReplayState, passed: u64, entries: &[Entry]) -> Taken
    requires timely { InTime entries.now }
    requires bound { passed + length entries.now < 2 ^ 64 }
    ensures { Follows replayed.old passed entries.now result replayed.new }
{
    let copy = match copy_of(alloc, replayed) {
        Ok(copy) => copy,
        Err(NoMemory) => return Taken::Memory,
    };
    match copy.go_on(alloc, entries) {
        Ok(next) => {
            *replayed = next;
            Taken::At(replayed.entries())
        }
        Err(Stopped::Illegal(count)) => Taken::Broken(passed + count as u64),
        Err(Stopped::Memory) => Taken::Memory,
    }
}

/// Follows the entries of a frame that are not before the position, which are behind so many.
fn follow_fresh(alloc: Global, replayed: &mut ReplayState, passed: u64, entries: &[Entry]) -> Taken
    requires timely { InTime entries.now }
    requires counted { replayed.old.entries < 2 ^ 64 }
    requires bound { passed + length entries.now < 2 ^ 64 }
    ensures { Follows replayed.old passed entries.now result replayed.new }
{
    match entries {
        [] => Taken::At(replayed.entries()),
        [entry] => follow_one(alloc, replayed, passed, entry),
        _ => follow_all(alloc, replayed, passed, entries),
    }
}

/// Takes a frame of entries.
pub fn take_entries(alloc: Global, replayed: &mut ReplayState, at: u64, entries: &[Entry]) -> Taken
    requires { InTime entries.now }
    ensures { TakesEntries replayed.old at entries.now result replayed.new }
{
    let position = replayed.entries();
    if position < at {
        return Taken::Ahead(position);
    }
    let passed = position - at;
    let front = entries.len().min(passed as usize);
    follow_fresh(alloc, replayed, passed, &entries[front..])
}

/// Whether rows may be taken at a position.
fn may_stand(alloc: Global, at: u64, base: &Base) -> Result<bool, NoMemory>
    ensures { IfOk result (λ may. IsTrue may ↔ MayStand at base.now) }
{
    if base.entries != at {
        return Ok(false);
    }
    is_sound(alloc, base)
}

/// Takes a frame of rows.
pub fn take_rows(alloc: Global, replayed: &mut ReplayState, at: u64, base: &Base) -> Taken
    ensures { TakesRows replayed.old at base.now result replayed.new }
{
    let position = replayed.entries();
    if at <= position {
        return Taken::At(position);
    }
    match may_stand(alloc, at, base) {
        Ok(true) => put_rows(alloc, replayed, at, base),
        Ok(false) => Taken::Broken(0),
        Err(NoMemory) => Taken::Memory,
    }
}

/// Takes rows that may be taken at their position.
fn put_rows(alloc: Global, replayed: &mut ReplayState, at: u64, base: &Base) -> Taken
    requires { MayStand at base.now }
    ensures { Stands replayed.old at base.now result replayed.new }
{
    match ReplayState::of(alloc, base) {
        Ok(next) => {
            *replayed = next;
            Taken::At(replayed.entries())
        }
        Err(NoMemory) => Taken::Memory,
    }
}
