//! How many entries an account has.
ghost use Rattle.std.specs.Prelude.{◌≡◌, ◌+◌};
ghost use Rattle.sm_account.specs.AccountState.{Kept, state_in};

use crate::account_state::AccountState;
use sm_disk::Disk;

/// How many entries were made, before the opening and since.
pub fn entries_count<D: Disk>(inner: &AccountState<D>) -> u64
    requires { Kept D.Disk inner.now }
    ensures { result ≡ (state_in inner.now).before + inner.now.made }
{
    inner.base.entries + inner.entries.len() as u64
}
