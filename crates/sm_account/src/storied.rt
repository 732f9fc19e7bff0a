//! The account as a value that stands for its history.
use crate::account::Account;
use sm_disk::Disk;
use sm_lock::Storied;
use sm_model::Mark;
use sm_recovery::Taken;
use sm_rotator::Rotator;

/// What an account was opened over: the base, or none, and the entries that it took from its disk, the limit on its
/// journal, the disk as it was, and how many doors were open. No value of it is made: it is what clauses say of a lock
/// that an account stands behind.
pub struct Opened<D> {
    pub taken: Taken,
    pub limit: u64,
    pub began: D,
    pub doors: u32,
}

impl<D: Disk, R: Rotator> Storied for Account<D, R> {
    ghost use Rattle.sm_account.specs.Accounts.{history, base, began, doors_at_opening, taken};

    type Origin = Opened<D>;

    type Entry = Mark;

    ghost origin = { λ account. record {
      taken = taken account;
      limit = (base account).limit;
      began = began account;
      doors = doors_at_opening account;
    } };

    ghost story = { λ account. history account };

    fn length(&self) -> u64 {
        self.marks_count()
    }
}
