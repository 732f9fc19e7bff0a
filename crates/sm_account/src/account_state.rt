//! The state of an account: its secrets, its entries on the disk, and its history.
use crate::told::Told;
use sm_claims::Claim;
use sm_disk::Disk;
use sm_model::{Entry, Moment};
use sm_record::Base;
use sm_recovery::Taken;
use sm_store::Store;
use sm_table::Table;
use std::alloc::Global;
use std::snapshot::Snapshot;

/// What an account is made of. What holds of it between two calls is `Kept`.
#[derive(Drop)]
pub struct AccountState<D: Disk> {
    pub alloc: Global,
    pub table: Table,
    pub store: Store<D>,
    /// What the entries are counted from.
    pub base: Base,
    /// The entries behind the base: those that were taken from the disk at the opening, and then those made since.
    pub entries: Vec<Entry>,
    /// The claims that may be open at some moment to come.
    pub claims: Vec<Claim>,
    /// The history since the opening: each mark beside the seat that made it.
    pub told: Told,
    /// How many marks the history has.
    pub marks: u64,
    /// The moment of the last entry, or 0.
    pub last: Moment,
    /// How many entries the history has.
    pub made: u64,
    /// The greatest length of the journal, in bytes.
    pub limit: u64,
    /// The base, or none, and the entries that were taken from the disk at the opening.
    pub taken: Snapshot<Taken>,
    /// The disk before the opening.
    pub began: Snapshot<D>,
    /// The entry whose write failed last, while the journal's tail is unsure.
    pub failed: Snapshot<Option<Entry>>,
}
