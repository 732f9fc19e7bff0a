//! A run between two calls.
ghost use Rattle.std.specs.Prelude.{◌≡◌, ◌-◌};

use sm_account::Account;
use sm_base::List;
use sm_disk::Disk;
use sm_rotator::{Rotator, Verdict};

/// The account of a run, the verdicts that it kept, and how many entries were made before it.
pub struct Run<D: Disk, R: Rotator> {
    pub account: Account<D, R>,
    pub verdicts: List<Verdict<R>>,
    pub first: u64,
}

impl<D: Disk, R: Rotator> Run<D, R> {
    ghost use Rattle.sm_drive.specs.RunInvariant.{Stands};

    /// What always holds of its account. It takes no memory, and does nothing.
    pub fn stand(&self)
        ensures { Stands D.Disk R.Rotator self.now }
    {
        self.account.invariants();
    }
}

/// At which place of a run's entries the next one stands, where so many were made in all.
pub fn place_of(made: u64, first: u64) -> u64
    ensures { result ≡ made - first }
{
    made.saturating_sub(first)
}
