//! The frames of an account.
ghost use Rattle.std.specs.Prelude.{◌≡◌, ◌+◌, ◌^◌, ◌<◌, IfOk, IfSome, length, take, drop};
ghost use Rattle.sm_replication.specs.declared.frame.TheConstants as limits;
ghost use Rattle.sm_replica.specs.Shipping.{entries_at, next_frame, end_of, Ships};
ghost use Rattle.sm_replica.specs.Shipped.{base_of, entries_of, IsShippable, AreShippable};

use sm_account::Account;
use sm_base::Copied;
use sm_disk::Disk;
use sm_encoded_size::note_spelled;
use sm_model::{Entry, List, NoMemory};
use sm_record::Base;
use sm_replication::{FRAME_ENTRIES, Frame};
use sm_rotator::Rotator;
use std::alloc::Global;

/// A copy of a base, which has the values of the secrets in common with it.
fn copy_of(alloc: Global, base: &Base) -> Result<Base, NoMemory>
    ensures { IfOk result (λ copy. copy ≡ base.now) }
{
    Ok(Base {
        rows: base.rows.copy(alloc)?,
        last: base.last,
        entries: base.entries,
    })
}

/// How many entries an account has, those before its base among them: where its history ends.
#[tactic(auto, using(sm_recovery::proofs::FollowLemmas::after_count))]
fn end_of_account<D: Disk, R: Rotator>(account: &Account<D, R>) -> u64
    ensures { result ≡ (base_of account.now).entries + length (entries_of account.now) }
{
    account.entries()
}

/// Copies of the entries behind the base from a place on, as many as a frame may have.
#[tactic(auto, using(crate::proofs::ShipLemmas::entries_cut))]
fn entries_from<D: Disk, R: Rotator>(
    alloc: Global,
    account: &Account<D, R>,
    place: u64,
) -> Result<Vec<Entry>, NoMemory>
    ensures { IfOk result (λ entries. entries.items
        ≡ take limits.FRAME_ENTRIES (drop place (entries_of account.now))) }
{
    let behind = end_of_account(account) - account.base().entries;
    let count = behind.saturating_sub(place).min(u64::from(FRAME_ENTRIES));
    let mut entries = Vec::new(alloc);
    for k in 0..count {
        match account.entry(place + k) {
            Some(entry) => entries.push(entry.copy(alloc)?)?,
            None => return Ok(entries),
        }
    }
    Ok(entries)
}

/// A frame of entries, where there are some.
fn entries_at(position: u64, entries: Vec<Entry>) -> Option<Frame>
    ensures { result ≡ entries_at position entries.items }
{
    if entries.is_empty() {
        return None;
    }
    Some(Frame::Entries(position, List::new(entries)))
}

/// The next frame at a position: below the account's base its rows, and else the entries from there on, as many as a
/// frame may have. At the end of the account and past it there is none.
#[tactic(auto, using(crate::proofs::ShipLemmas::rows_shippable))]
pub fn next_frame<D: Disk, R: Rotator>(
    alloc: Global,
    account: &Account<D, R>,
    position: u64,
) -> Result<Option<Frame>, NoMemory>
    ensures frame { IfOk result (λ frame. frame
        ≡ next_frame (base_of account.now) (entries_of account.now) position) }
    ensures shippable { IfOk result (λ frame. IfSome frame IsShippable) }
{
    let base = account.base();
    note_spelled(base);
    if position < base.entries {
        return Ok(Some(Frame::Rows(base.entries, copy_of(alloc, base)?)));
    }
    let entries = entries_from(alloc, account, position - base.entries)?;
    Ok(entries_at(position, entries))
}

/// Where a frame brings a replica.
fn end_of(frame: &Frame) -> u64
    requires { end_of frame.now < 2 ^ 64 }
    ensures { result ≡ end_of frame.now }
{
    match frame {
        Frame::Entries(at, entries) => *at + entries.len() as u64,
        Frame::Rows(at, _) => *at,
    }
}

/// The frames that bring a replica from a position to the end of an account. Below the account's base its rows come
/// first, and then all entries behind them.
#[tactic(auto, using(crate::proofs::ShipLemmas::none_shipped, crate::proofs::ShipLemmas::shipped_all, crate::proofs::ShipLemmas::shippable_all, crate::proofs::ShipLemmas::ends_further, crate::proofs::ShipLemmas::ends_in))]
pub fn ship<D: Disk, R: Rotator>(
    alloc: Global,
    account: &Account<D, R>,
    position: u64,
) -> Result<List<Frame>, NoMemory>
    ensures ships { IfOk result (Ships (base_of account.now) (entries_of account.now) position) }
    ensures shippable { IfOk result AreShippable }
{
    let _end = end_of_account(account);
    let mut frames = Vec::new(alloc);
    let mut at = position;
    loop {
        match next_frame(alloc, account, at)? {
            Some(frame) => {
                at = end_of(&frame);
                frames.push(frame)?;
            }
            None => return Ok(List::new(frames)),
        }
    }
}
