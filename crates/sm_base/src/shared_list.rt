//! Lists whose copies share their items.
ghost use Rattle.std.specs.Prelude.{◌≡◌, ◌<◌, ◌++◌, ◌∷◌, [], IfOk, OnOk, OnErr, length, map, filter, slice_get, slice_set, option_copied, nat_eq};
ghost use Rattle.std.specs.Cmp.Lexicographic.{pointwise};
ghost use Rattle.std.specs.List.{find, position};
ghost use Rattle.sm_base.specs.Sums.{sum_of};

use crate::blocks::{BLOCK, Blocks};
use crate::entry::{Entry, Keyed, add_shared, sum_of};
use crate::front::Front;
use crate::memory::{Copied, NoMemory};
use crate::picks::Picks;
use std::alloc::Global;
use std::marker::Model;

/// A list of items in order, which contracts see as the list itself. A copy shares the items of its original: it costs
/// a count for all but the last few items, and one for each of these. The numbers of the keys spare most looks at the
/// keys.
#[derive(Drop)]
pub struct SharedList<T: Keyed> {
    front: Front<T>,
    /// The last items, of which there are fewer than a block has.
    own: Vec<Entry<T>>,
}

impl<T: Keyed> Model for SharedList<T> {
    ghost use Rattle.std.specs.Prelude.{List, ◌++◌};

    ghost Value = { List T };

    ghost view = { λ l. l.front ++ l.own.items };
}

impl<T: Keyed> SharedList<T> {
    /// No items. It takes no memory.
    pub fn empty(alloc: Global) -> SharedList<T>
        ensures { result ≡ [] }
    {
        SharedList {
            front: Front::empty(alloc),
            own: Vec::new(alloc),
        }
    }

    pub fn len(&self) -> usize
        ensures { result ≡ length self.now }
    {
        self.front.len() + self.own.len()
    }

    #[tactic(auto, using(crate::proofs::PlaceLemmas::got_before, crate::proofs::PlaceLemmas::got_behind))]
    fn entry(&self, place: usize) -> Option<&Entry<T>>
        ensures { option_copied result ≡ slice_get self.now place }
    {
        let shared = self.front.len();
        if place < shared {
            return self.front.get(place);
        }
        self.own.get(place - shared)
    }

    /// The item at a place, counted from 0.
    pub fn get(&self, place: usize) -> Option<&T>
        ensures { option_copied result ≡ slice_get self.now place }
    {
        match self.entry(place) {
            Some(entry) => Some(entry.item()),
            None => None,
        }
    }

    /// The items in order. It takes memory for their addresses alone.
    pub fn items<'a>(&'a self, alloc: Global) -> Result<Vec<&'a T>, NoMemory>
        ensures { IfOk result (λ vec. map (λ item. item.now) vec.items ≡ self.now) }
    {
        let mut vec = Vec::with_capacity(alloc, self.len())?;
        for place in 0..self.len() {
            if let Some(item) = self.get(place) {
                vec.push(item)?;
            }
        }
        Ok(vec)
    }

    /// The place of the first item with the key, and nothing where no item has it. An item with another key is looked
    /// at only where both have the same number.
    #[tactic(auto, using(crate::proofs::SharedLemmas::position_before, crate::proofs::SharedLemmas::position_behind, crate::proofs::SharedLemmas::position_nowhere))]
    pub fn position(&self, key: &[u8]) -> Option<usize>
        ensures { result ≡ position (λ item. pointwise nat_eq (T.key item) key.now) self.now }
    {
        let sum = sum_of(key);
        match self.front.position(sum, key) {
            Some(place) => Some(place),
            None => match position_of(self.own.as_slice(), sum, key) {
                Some(place) => Some(self.front.len() + place),
                None => None,
            },
        }
    }

    /// The first item with the key.
    #[tactic(auto, using(crate::proofs::SharedLemmas::item_at_position, crate::proofs::SharedLemmas::no_item))]
    pub fn find(&self, key: &[u8]) -> Option<&T>
        ensures { option_copied result ≡ find (λ item. pointwise nat_eq (T.key item) key.now) self.now }
    {
        match self.position(key) {
            Some(place) => self.get(place),
            None => None,
        }
    }
}

impl<T: Keyed + Drop> SharedList<T> {
    /// Adds an item at the end. Without memory the list stays, and the item is dropped.
    pub fn push(&mut self, alloc: Global, item: T) -> Result<(), NoMemory>
        ensures ok { OnOk result (self.new ≡ self.old ++ item ∷ []) }
        ensures err { OnErr result (self.new ≡ self.old) }
    {
        let entry = Entry::new(alloc, item)?;
        if self.own.len() + 1 < BLOCK {
            self.own.push(entry)?;
        } else {
            *self = self.and(alloc, entry)?;
        }
        Ok(())
    }

    /// The same items, all shared, and another one behind them.
    fn and(&self, alloc: Global, entry: Entry<T>) -> Result<SharedList<T>, NoMemory>
        ensures { IfOk result (λ list. list ≡ self.now ++ entry ∷ []) }
    {
        if self.own.len() + 1 != BLOCK || self.front.is_sparse() {
            let mut entries = self.entries(alloc)?;
            entries.push(entry)?;
            return SharedList::of(alloc, entries);
        }
        let mut entries = Vec::with_capacity(alloc, BLOCK)?;
        add_shared(&mut entries, self.own.as_slice())?;
        entries.push(entry)?;
        Ok(SharedList {
            front: self.front.and(alloc, entries)?,
            own: Vec::new(alloc),
        })
    }

    /// Puts an item at a place. The one that stood there stays in the copies. Without memory the list stays, and the
    /// item is dropped.
    pub fn replace(&mut self, alloc: Global, place: usize, item: T) -> Result<(), NoMemory>
        requires { place < length self.old }
        ensures ok { OnOk result (self.new ≡ slice_set self.old place item) }
        ensures err { OnErr result (self.new ≡ self.old) }
    {
        let entry = Entry::new(alloc, item)?;
        let shared = self.front.len();
        if place < shared {
            self.front.replace(alloc, place, entry)?;
            return Ok(());
        }
        self.own[place - shared] = entry;
        Ok(())
    }

    /// Takes out the items that are not picked. The others stay in their order. It takes no memory: what is taken out
    /// of those that copies share is let go where the others are gathered next.
    pub fn retain<P: Picks<T>>(&mut self, picks: &P)
        ensures { self.new ≡ filter (P.picked picks.now) self.old }
    {
        self.front.retain(picks);
        self.own.retain(|entry| picks.picks(entry.item()));
    }

    /// The items with the numbers of their keys, in order.
    #[tactic(auto, using(crate::proofs::PlaceLemmas::took_one, crate::proofs::PlaceLemmas::took_none))]
    fn entries(&self, alloc: Global) -> Result<Vec<Entry<T>>, NoMemory>
        ensures { IfOk result (λ entries. entries.items ≡ self.now) }
    {
        let mut entries = Vec::with_capacity(alloc, self.len())?;
        for place in 0..self.len() {
            if let Some(entry) = self.entry(place) {
                entries.push(entry.shared()?)?;
            }
        }
        Ok(entries)
    }

    /// The list of the items of a vector.
    pub fn from_vec(alloc: Global, vec: Vec<T>) -> Result<SharedList<T>, NoMemory>
        ensures { IfOk result (λ list. list ≡ vec.items) }
    {
        let mut entries = Vec::with_capacity(alloc, vec.len())?;
        for item in vec {
            entries.push(Entry::new(alloc, item)?)?;
        }
        SharedList::of(alloc, entries)
    }

    /// The list of the items of some entries.
    fn of(alloc: Global, entries: Vec<Entry<T>>) -> Result<SharedList<T>, NoMemory>
        ensures { IfOk result (λ list. list ≡ entries.items) }
    {
        let mut blocks = Blocks::with_room(alloc, entries.len())?;
        let mut own = Vec::new(alloc);
        for entry in entries {
            own.push(entry)?;
            if own.len() == BLOCK {
                blocks = blocks.and(alloc, own)?;
                own = Vec::new(alloc);
            }
        }
        Ok(SharedList {
            front: Front::of(alloc, blocks)?,
            own,
        })
    }
}

impl<T: Keyed + Copied> SharedList<T> {
    /// The copies of the items, in order.
    #[tactic(auto, using(crate::proofs::PlaceLemmas::took_one, crate::proofs::PlaceLemmas::took_none))]
    pub fn to_vec(&self, alloc: Global) -> Result<Vec<T>, NoMemory>
        ensures { IfOk result (λ vec. vec.items ≡ self.now) }
    {
        let mut vec = Vec::with_capacity(alloc, self.len())?;
        for place in 0..self.len() {
            if let Some(item) = self.get(place) {
                vec.push(item.copy(alloc)?)?;
            }
        }
        Ok(vec)
    }
}

impl<T: Keyed + Drop> Copied for SharedList<T> {
    fn copy(&self, alloc: Global) -> Result<SharedList<T>, NoMemory> {
        let front = self.front.shared(alloc)?;
        // (with room for one more)
        let mut own = Vec::with_capacity(alloc, BLOCK - 1)?;
        add_shared(&mut own, self.own.as_slice())?;
        Ok(SharedList { front, own })
    }
}

/// The place of the first entry with the key, whose number this is.
#[tactic(auto, using(crate::proofs::SharedLemmas::none_upto, crate::proofs::SharedLemmas::first_at))]
fn position_of<T: Keyed>(entries: &[Entry<T>], sum: u32, key: &[u8]) -> Option<usize>
    requires { sum ≡ sum_of key.now }
    ensures { result ≡ position (λ item. pointwise nat_eq (T.key item) key.now) entries.now }
{
    for at in 0..entries.len() {
        if entries[at].has_key(sum, key) {
            return Some(at);
        }
    }
    None
}
