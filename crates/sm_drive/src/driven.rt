//! What a run leaves.
use crate::outcome::Outcome;
use sm_account::Account;
use sm_base::List;
use sm_disk::Disk;
use sm_rotator::{Rotator, Verdict};

/// The account at the end of a run, an outcome for each call, in their order, and the verdicts that were kept.
#[derive(Drop)]
pub struct Driven<D: Disk, R: Rotator> {
    pub account: Account<D, R>,
    pub outcomes: List<Outcome>,
    pub verdicts: List<Verdict<R>>,
}
