//! Opening an account over a disk.
ghost use Rattle.std.specs.Prelude.{◌≡◌, ◌≤◌, IfOk, IfErr};
ghost use Rattle.sm_base.specs.declared.limits.TheConstants.{JOURNAL_LIMIT};
ghost use Rattle.sm_journal.specs.declared.format.Format.TheVariants as formats;
ghost use Rattle.sm_recovery.specs.Lawful.{made_of, IsLawful};
ghost use Rattle.sm_recovery.specs.Openings.{IsRefused};
ghost use Rattle.sm_store.specs.Stores as stores;
ghost use Rattle.sm_account.specs.Accounts as accounts;
ghost use Rattle.sm_account.specs.Openings.{IsOpenedOver, TakenFrom, IsAccountStateOver};

use crate::account::Account;
use crate::account_state::AccountState;
use crate::told::Told;
use sm_disk::Disk;
use sm_journal::OpenRefused;
use sm_recovery::{Opened, Taken, base_under, open};
use sm_rotator::Rotator;
use std::alloc::Global;
use std::snapshot::Snapshot;

impl<D: Disk, R: Rotator> Account<D, R> {
    /// Opens the account of a disk, with so many open doors, under a limit on the journal's length in bytes. It takes
    /// the base that the disk recovers, or none, and the entries behind it, and judges each again at the rows of those
    /// before it. The disk is damaged where the base is not sound, or an entry is not legal where it stands: the place
    /// is the byte of the record's gate, and the number is that of the records before it. A journal of the first
    /// format that has more than nine bytes is replaced by what it makes, as a base, and so is one with more than 1,000
    /// entries behind its base, where the new one is within the limit. An error hands the disk back.
    pub fn open(
        alloc: Global,
        disk: D,
        doors: u32,
        limit: u64,
    ) -> Result<Account<D, R>, OpenRefused<D>>
        requires { (9 ≤ limit) × (limit ≤ JOURNAL_LIMIT) }
        ensures opened { IfOk result (IsOpenedOver disk doors limit) }

        // A crash at any moment of the call leaves each image with the state that it had.
        ensures taken { IfOk result (λ account.
            TakenFrom D.Disk disk limit (accounts.taken account) (accounts.disk account)) }

        ensures refused { IfErr result (IsRefused D.Disk disk) }
    {
        let began = Snapshot::of(&disk);
        match open(alloc, disk, limit) {
            Ok(opened) => Ok(Account::over(account_state_over(alloc, opened, began, limit), doors)),
            Err(refused) => Err(refused),
        }
    }
}

/// the account's state over a disk that was opened.
fn account_state_over<D: Disk>(
    alloc: Global,
    opened: Opened<D>,
    began: Snapshot<D>,
    limit: u64,
) -> AccountState<D>
    requires store { stores.IsOpened limit opened.taken opened.store }
    requires second { stores.format_of opened.store ≡ formats.Second }
    requires lawful { IsLawful opened.taken }
    requires replayed { opened.replayed ≡ made_of opened.taken }
    requires limits { (9 ≤ limit) × (limit ≤ JOURNAL_LIMIT) }
    requires later { D.faults began.value ≤ D.faults (stores.disk_of opened.store) }
    ensures { IsAccountStateOver D.Disk opened began.value limit result }
{
    let Opened {
        store,
        taken,
        replayed,
        ..
    } = opened;
    let (table, last, _) = replayed.into_parts();
    let found = Snapshot::of(&taken);
    let Taken { base, entries } = taken;
    AccountState {
        alloc,
        table,
        store,
        base: base_under(alloc, base),
        entries: entries.into_vec(),
        claims: Vec::new(alloc),
        told: Told::nothing(),
        marks: 0,
        last,
        made: 0,
        limit,
        taken: found,
        began,
        failed: Snapshot::of(&None),
    }
}
