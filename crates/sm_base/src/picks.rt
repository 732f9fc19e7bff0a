//! Which items of a list stay in it.
ghost use Rattle.std.specs.Prelude.{◌≡◌, option_copied};
ghost use Rattle.sm_base.specs.Blocks.{passes};

use crate::entry::{Entry, Keyed};

/// What picks the items that stay in a list.
pub trait Picks<T> {
    ghost use Rattle.std.specs.Prelude.{Bool};

    /// Whether an item is picked.
    ghost picked: { Self → T → Bool };

    fn picks(&self, item: &T) -> bool
        ensures { result ≡ picked self.now item.now };
}

/// Whether there is an item, and it is picked.
pub(crate) fn is_picked<T: Keyed, P: Picks<T>>(entry: Option<&Entry<T>>, picks: &P) -> bool
    ensures { result ≡ passes (P.picked picks.now) (option_copied entry.entry) }
{
    match entry {
        Some(entry) => picks.picks(entry.item()),
        None => false,
    }
}
