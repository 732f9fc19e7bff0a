//! What lists share: items with the numbers of their keys.
ghost use Rattle.std.specs.Prelude.{◌≡◌, ◌++◌, IfOk, OnOk, nat_eq};
ghost use Rattle.std.specs.Cmp.Lexicographic.{pointwise};
ghost use Rattle.sm_base.specs.Sums.{mixed, sum_of};

use crate::memory::NoMemory;
use std::alloc::Global;
use std::marker::Model;
use std::sync::Arc;

/// What is found by a key.
pub trait Keyed {
    ghost use Rattle.std.specs.Prelude.{List, ℕ};

    /// The bytes of the key.
    ghost key: { Self → List ℕ };

    fn key(&self) -> &[u8]
        ensures { result.now ≡ key self.now };
}

/// An item that copies share, with the number of its key, which contracts see as the item.
#[derive(Drop)]
pub(crate) struct Entry<T: Keyed> {
    /// Equal keys have equal ones.
    sum: u32,
    item: Arc<T>,
}

impl<T: Keyed> Model for Entry<T> {
    ghost use Rattle.std.specs.Prelude.{◌≡◌};
    ghost use Rattle.std.specs.Arc.{arc_value};
    ghost use Rattle.sm_base.specs.Sums.{sum_of};

    ghost Value = { T };

    ghost view = { λ e. arc_value e.item };

    ghost invariant = { λ e. e.sum ≡ sum_of (T.key (arc_value e.item)) };
}

impl<T: Keyed> Entry<T> {
    pub(crate) fn item(&self) -> &T
        ensures { result.now ≡ self.now }
    {
        &self.item
    }

    /// The same item, shared.
    pub(crate) fn shared(&self) -> Result<Entry<T>, NoMemory>
        ensures { IfOk result (λ entry. entry ≡ self.now) }
    {
        let item = Arc::try_clone(&self.item)?;
        Ok(Entry {
            sum: self.sum,
            item,
        })
    }

    /// Whether the item has the key, whose number this is. An item with another number is not looked at.
    pub(crate) fn has_key(&self, sum: u32, key: &[u8]) -> bool
        requires { sum ≡ sum_of key.now }
        ensures { result ≡ pointwise nat_eq (T.key self.now) key.now }
    {
        self.sum == sum && self.item.key() == key
    }

    /// The number of the item's key.
    pub(crate) fn sum(&self) -> u32
        ensures { result ≡ sum_of (T.key self.now) }
    {
        self.sum
    }
}

impl<T: Keyed + Drop> Entry<T> {
    pub(crate) fn new(alloc: Global, item: T) -> Result<Entry<T>, NoMemory>
        ensures { IfOk result (λ entry. entry ≡ item) }
    {
        let sum = sum_of(item.key());
        let item = Arc::new(alloc, item)?;
        Ok(Entry { sum, item })
    }
}

/// The number of a key.
pub(crate) fn sum_of(key: &[u8]) -> u32
    ensures { result ≡ sum_of key.now }
{
    key.iter().fold(0, |sum, byte| mixed(sum, *byte))
}

/// The number with another byte.
#[tactic(auto, unfolding(crate::specs::Sums::mixed))]
fn mixed(sum: u32, byte: u8) -> u32
    ensures { result ≡ mixed sum byte }
{
    sum.wrapping_mul(31).wrapping_add(byte as u32)
}

/// Adds the entries to a vector, shared.
pub(crate) fn add_shared<T: Keyed + Drop>(
    entries: &mut Vec<Entry<T>>,
    shared: &[Entry<T>],
) -> Result<(), NoMemory>
    ensures { OnOk result (entries.new.items ≡ entries.old.items ++ shared.now) }
{
    for entry in shared {
        entries.push(entry.shared()?)?;
    }
    Ok(())
}
