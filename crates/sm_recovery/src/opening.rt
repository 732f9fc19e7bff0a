//! Opening a disk that has a base and entries.
ghost use Rattle.std.specs.Prelude.{◌≡◌, ◌≤◌, ℕ, List, None, IfOk, IfErr};
ghost use Rattle.sm_base.specs.declared.limits.TheConstants.{JOURNAL_LIMIT};
ghost use Rattle.sm_journal.specs.Records.{place_behind};
ghost use Rattle.sm_store.specs.Openings.{held_of, IsFront, IsUnopened};
ghost use Rattle.sm_store.specs.Stores.{disk_of, format_of, bodies_edition, disk_in, IsOpened, IsStopped};
ghost use Rattle.sm_store.specs.Held.{Held, base_bodies};
ghost use Rattle.sm_store.specs.declared.unopened.Unopened.TheVariants.{NoEntry};
ghost use Rattle.sm_recovery.specs.Keeping.{StateStays};
ghost use Rattle.sm_recovery.specs.Lawful.{made_of, IsLawful};
ghost use Rattle.sm_recovery.specs.Openings.{Opens, TakesOver, IsUntaken, IsRefused};
ghost use Rattle.sm_recovery.specs.Unlawful.{IsUnlawful, OnDamaged};

use crate::ReplayState;
use crate::lawful::{Unlawful, first_fault, lawful};
use crate::opened::{Opened, Taken};
use crate::replacing::{new_base, replace};
use sm_disk::Disk;
use sm_model::NoMemory;
use sm_store::{Front, Loaded, OpenRefused, Store, Unopened, edition_of};
use std::alloc::Global;

/// Opens a disk, under a limit on the length of its file in bytes. It takes what the file holds that the root
/// names: a base, or none, and the entries behind it, each judged again at the rows of those before it. It is
/// damaged where the file is outside the grammar, and else at the first fault of its bodies: at the first gate
/// where the first of them are of rows and no sound base, and at its gate where one is no entry's spelling or no
/// legal entry; the number is that of the records before it. Where the file is of the first format and longer than
/// nine bytes, or more than 1,000 entries stand behind its base and the new file is not too long, it puts what they
/// make as a base in the place of all that. An error hands the disk back.
pub fn open<D: Disk>(alloc: Global, disk: D, limit: u64) -> Result<Opened<D>, OpenRefused<D>>
    requires { (9 ≤ limit) × (limit ≤ JOURNAL_LIMIT) }
    ensures opened { IfOk result (Opens disk limit) }
    ensures lawful { IfOk result (λ opened. IsLawful opened.taken) }
    ensures made { IfOk result (λ opened. opened.replayed ≡ made_of opened.taken) }

    // A crash at any moment of the call leaves each image with the state that it had.
    ensures any_moment { IfOk result (λ opened. StateStays (D.sight disk) (D.sight (disk_of opened.store))) }

    ensures no_other { IfOk result (λ opened. D.faults (disk_of opened.store) ≡ D.faults disk) }
    ensures refused { IfErr result (IsRefused D.Disk disk) }
{
    match Store::open(alloc, disk, limit) {
        Ok((store, loaded)) => take_over(alloc, store, loaded, limit),
        Err(Unopened::NoEntry(disk, front)) => Err(refused_behind(alloc, disk, front)),
        Err(Unopened::Refused(refused)) => Err(refused),
    }
}

/// Why a disk is not opened on which a body is no entry's spelling: the first fault, or out of memory.
fn refused_behind<D: Disk>(alloc: Global, disk: D, front: Front) -> OpenRefused<D>
    requires { (bodies : List (List ℕ)) × IsFront bodies front }
    ensures { (old : D) → IsUnopened D.Disk old (NoEntry disk front) → IsRefused D.Disk old result }
{
    match first_fault(alloc, &front) {
        Unlawful::Damaged(damage) => OpenRefused::Damaged(disk, damage),
        Unlawful::Memory => OpenRefused::Memory(disk),
    }
}

/// Takes over what a store was opened with, where it is lawful. An error hands the disk back.
fn take_over<D: Disk>(
    alloc: Global,
    store: Store<D>,
    loaded: Loaded,
    limit: u64,
) -> Result<Opened<D>, OpenRefused<D>>
    requires limit { limit ≤ JOURNAL_LIMIT }
    requires opened { IsOpened limit (held_of loaded) store }
    requires gate { loaded.gate ≡ place_behind (base_bodies (bodies_edition store) loaded.base) }
    ensures lawful { IfOk result (λ opened. IsLawful (held_of loaded)) }
    ensures takes { IfOk result (TakesOver (format_of store) (held_of loaded) limit) }
    ensures any_moment { IfOk result (λ opened.
        StateStays (D.sight (disk_of store)) (D.sight (disk_of opened.store))) }
    ensures no_other { IfOk result (λ opened. D.faults (disk_of opened.store) ≡ D.faults (disk_of store)) }
    ensures refused { IfErr result (IsUntaken store (held_of loaded)) }
{
    match lawful(alloc, edition_of(store.format()), &loaded) {
        Ok(replayed) => go_over(alloc, store, loaded, replayed, limit),
        Err(why) => Err(untaken(store, why)),
    }
}

/// Takes over what a store was opened with, which is lawful and makes this. An error hands the disk back.
fn go_over<D: Disk>(
    alloc: Global,
    store: Store<D>,
    loaded: Loaded,
    replayed: ReplayState,
    limit: u64,
) -> Result<Opened<D>, OpenRefused<D>>
    requires limit { limit ≤ JOURNAL_LIMIT }
    requires opened { IsOpened limit (held_of loaded) store }
    requires made { replayed ≡ made_of (held_of loaded) }
    ensures takes { IfOk result (TakesOver (format_of store) (held_of loaded) limit) }
    ensures any_moment { IfOk result (λ opened.
        StateStays (D.sight (disk_of store)) (D.sight (disk_of opened.store))) }
    ensures no_other { IfOk result (λ opened. D.faults (disk_of opened.store) ≡ D.faults (disk_of store)) }
    ensures stopped { IfErr result (IsStopped D.Disk (disk_of store)) }
    ensures stays { IfErr result (λ refused.
        StateStays (D.sight (disk_of store)) (D.sight (disk_in refused))) }
{
    match new_base(
        alloc,
        store.format(),
        limit,
        loaded.entries.len(),
        &replayed,
    ) {
        Ok(Some(base)) => replace(alloc, store, replayed, base),
        Ok(None) => Ok(opened_with(store, loaded, replayed)),
        Err(NoMemory) => Err(OpenRefused::Memory(store.close())),
    }
}

/// The store with what it was opened with.
fn opened_with<D: Disk>(store: Store<D>, loaded: Loaded, replayed: ReplayState) -> Opened<D>
    ensures store { result.store ≡ store }
    ensures taken { result.taken ≡ held_of loaded }
    ensures replayed { result.replayed ≡ replayed }
    ensures replaced { result.replaced ≡ None }
{
    let Loaded { base, entries, .. } = loaded;
    Opened {
        store,
        taken: Taken { base, entries },
        replayed,
        replaced: None,
    }
}

/// Why what a store holds is not taken over.
fn untaken<D: Disk>(store: Store<D>, why: Unlawful) -> OpenRefused<D>
    ensures { (h : Held) → OnDamaged (IsUnlawful (bodies_edition store) h) why → IsUntaken store h result }
{
    match why {
        Unlawful::Damaged(damage) => OpenRefused::Damaged(store.close(), damage),
        Unlawful::Memory => OpenRefused::Memory(store.close()),
    }
}
