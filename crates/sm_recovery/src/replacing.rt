//! Putting what entries make as a base in their place.
ghost use Rattle.std.specs.Prelude.{◌≡◌, ◌≤◌, None, false, IfOk, IfErr, IfSome};
ghost use Rattle.sm_base.specs.declared.limits.TheConstants.{JOURNAL_LIMIT};
ghost use Rattle.sm_journal.specs.declared.format.Format.TheVariants as formats;
ghost use Rattle.sm_base_check.specs.Bases.{IsSound};
ghost use Rattle.sm_store.specs.Stores.{disk_of, limit_of, is_unsure, disk_in, Holds, IsStopped};
ghost use Rattle.sm_store.specs.Held.{Held};
ghost use Rattle.sm_recovery.specs.Keeping.{StateStays};
ghost use Rattle.sm_recovery.specs.Lawful.{made_of};
ghost use Rattle.sm_recovery.specs.Openings.{Replaces};
ghost use Rattle.sm_recovery.specs.Replacing as replacing;

use crate::ReplayState;
use crate::opened::{Opened, Taken};
use sm_disk::Disk;
use sm_encoded_size::{file_size, note_spelled};
use sm_journal::Format;
use sm_model::{List, NoMemory};
use sm_record::Base;
use sm_store::{OpenRefused, Store};
use std::alloc::Global;

/// How many entries may stand behind a base before another base takes their place.
const MOST_BEHIND: usize = 1000;

/// The base that takes the place of what a file of this format holds, under this limit, if one does: what it makes,
/// where so many entries stand behind its base.
pub fn new_base(
    alloc: Global,
    format: Format,
    limit: u64,
    behind: usize,
    replayed: &ReplayState,
) -> Result<Option<Base>, NoMemory>
    ensures base { IfOk result (λ base. base ≡ replacing.new_base format limit behind replayed.now) }
    ensures sound { IfOk result (λ base. IfSome base IsSound) }
{
    match format {
        Format::First => Ok(Some(replayed.base()?)),
        Format::Second => shorter_base(alloc, limit, behind, replayed),
    }
}

/// The same of a file of the second format.
fn shorter_base(
    alloc: Global,
    limit: u64,
    behind: usize,
    replayed: &ReplayState,
) -> Result<Option<Base>, NoMemory>
    ensures base { IfOk result (λ base. base ≡ replacing.new_base formats.Second limit behind replayed.now) }
    ensures sound { IfOk result (λ base. IfSome base IsSound) }
{
    if behind <= MOST_BEHIND {
        return Ok(None);
    }
    let base = replayed.base()?;
    if file_size(alloc, &base)? > limit {
        return Ok(None);
    }
    Ok(Some(base))
}

/// Puts a base in the place of all that a store holds, which makes it. An error hands the disk back.
pub fn replace<D: Disk>(
    alloc: Global,
    store: Store<D>,
    replayed: ReplayState,
    base: Base,
) -> Result<Opened<D>, OpenRefused<D>>
    requires sure { is_unsure store ≡ false }
    requires limit { limit_of store ≤ JOURNAL_LIMIT }
    requires sound { IsSound base }
    ensures replaces { IfOk result (Replaces store replayed base) }
    ensures any_moment { IfOk result (λ opened. (h : Held) → Holds store h None → made_of h ≡ base →
        StateStays (D.sight (disk_of store)) (D.sight (disk_of opened.store))) }
    ensures no_other { IfOk result (λ opened. D.faults (disk_of opened.store) ≡ D.faults (disk_of store)) }
    ensures stopped { IfErr result (IsStopped D.Disk (disk_of store)) }
    ensures stays { IfErr result (λ refused. (h : Held) → Holds store h None → made_of h ≡ base →
        StateStays (D.sight (disk_of store)) (D.sight (disk_in refused))) }
{
    let before = store.length();
    note_spelled(&base);
    match store.checkpoint(alloc, &base) {
        Ok(store) => {
            let after = store.length();
            Ok(Opened {
                store,
                taken: Taken {
                    base: Some(base),
                    entries: List::empty(alloc),
                },
                replayed,
                replaced: Some((before, after)),
            })
        }
        Err(refused) => Err(refused),
    }
}
