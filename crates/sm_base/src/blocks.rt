//! The entries that lists share with their copies, in blocks.
ghost use Rattle.std.specs.Prelude.{◌≡◌, ◌<◌, ◌^◌, ◌++◌, [], IfOk, OnOk, length, map, slice_get, slice_set, option_copied, nat_eq};
ghost use Rattle.std.specs.Cmp.Lexicographic.{pointwise};
ghost use Rattle.std.specs.List.{position};
ghost use Rattle.sm_base.specs.Blocks.{passes};
ghost use Rattle.sm_base.specs.Sums.{sum_of};

use crate::entry::{Entry, Keyed, add_shared};
use crate::memory::NoMemory;
use std::alloc::Global;
use std::marker::Model;
use std::sync::Arc;

/// How many entries a block has.
pub(crate) const BLOCK: usize = 8;

/// Room is taken for a multiple of this many, so that what one list lets go serves the next.
const ROOM: usize = 32;

/// For how many room is taken where there are so many, and may be a few more.
pub(crate) fn more_than(count: usize) -> usize
    requires { count < 2 ^ 63 }
    ensures { count < result }
{
    (count / ROOM + 1) * ROOM
}

/// Entries that lists share whole.
#[derive(Drop)]
struct Block<T: Keyed> {
    entries: Arc<Vec<Entry<T>>>,
}

impl<T: Keyed> Model for Block<T> {
    ghost use Rattle.std.specs.Prelude.{List};
    ghost use Rattle.std.specs.Arc.{arc_value};

    ghost Value = { List T };

    ghost view = { λ b. (arc_value b.entries).items };
}

impl<T: Keyed> Block<T> {
    fn get(&self, place: usize) -> Option<&Entry<T>>
        ensures { option_copied result ≡ slice_get self.now place }
    {
        self.entries.get(place)
    }

    /// The same entries, shared.
    fn shared(&self) -> Result<Block<T>, NoMemory>
        ensures { IfOk result (λ block. block ≡ self.now) }
    {
        let entries = Arc::try_clone(&self.entries)?;
        Ok(Block { entries })
    }
}

impl<T: Keyed + Drop> Block<T> {
    fn of(alloc: Global, entries: Vec<Entry<T>>) -> Result<Block<T>, NoMemory>
        ensures { IfOk result (λ block. block ≡ entries.items) }
    {
        let entries = Arc::new(alloc, entries)?;
        Ok(Block { entries })
    }

    /// The same entries, with another one at a place.
    fn with(&self, alloc: Global, place: usize, entry: Entry<T>) -> Result<Block<T>, NoMemory>
        requires { place < length self.now }
        ensures { IfOk result (λ block. block ≡ slice_set self.now place entry) }
    {
        let mut entries = Vec::with_capacity(alloc, BLOCK)?;
        add_shared(&mut entries, self.entries.as_slice())?;
        entries[place] = entry;
        Block::of(alloc, entries)
    }
}

/// Entries in order, in full blocks. The numbers of their keys stand side by side, so that most entries are passed over
/// without a look at them.
#[derive(Drop)]
pub(crate) struct Blocks<T: Keyed> {
    sums: Vec<u32>,
    shared: Vec<Block<T>>,
}

impl<T: Keyed> Model for Blocks<T> {
    ghost use Rattle.std.specs.Prelude.{List};
    ghost use Rattle.sm_base.specs.Blocks.{joined, AreBlocks};
    ghost use Rattle.sm_base.specs.Sums.{sum_of};

    ghost Value = { List T };

    ghost view = { λ b. joined b.shared.items };

    ghost invariant = { λ b. AreBlocks (λ item. sum_of (T.key item)) b.shared.items b.sums.items };
}

impl<T: Keyed> Blocks<T> {
    /// No entries, with room for the blocks of so many. It takes no memory where that is none.
    pub(crate) fn with_room(alloc: Global, count: usize) -> Result<Blocks<T>, NoMemory>
        ensures { IfOk result (λ blocks. blocks ≡ []) }
    {
        Ok(Blocks {
            sums: Vec::with_capacity(alloc, count)?,
            shared: Vec::with_capacity(alloc, count / BLOCK)?,
        })
    }

    #[tactic(auto, using(crate::proofs::BlockLemmas::length_numbered))]
    pub(crate) fn len(&self) -> usize
        ensures count { result ≡ length self.now }
        ensures bound { result < 2 ^ 63 }
    {
        self.sums.len()
    }

    /// The entry at a place, counted from 0.
    #[tactic(auto, using(crate::proofs::BlockLemmas::got_joined, crate::proofs::BlockLemmas::past_joined))]
    pub(crate) fn get(&self, place: usize) -> Option<&Entry<T>>
        ensures { option_copied result ≡ slice_get self.now place }
    {
        if place / BLOCK >= self.shared.len() {
            return None;
        }
        self.shared[place / BLOCK].get(place % BLOCK)
    }

    /// The place of the first entry with the key, whose number this is. An entry with another number is not looked at.
    #[tactic(auto, using(crate::proofs::BlockLemmas::other_number, crate::proofs::PlaceLemmas::not_passed, crate::proofs::PlaceLemmas::passed_at))]
    pub(crate) fn position(&self, sum: u32, key: &[u8]) -> Option<usize>
        requires { sum ≡ sum_of key.now }
        ensures { result ≡ position (λ item. pointwise nat_eq (T.key item) key.now) self.now }
    {
        for at in 0..self.sums.len() {
            if self.sums[at] == sum && self.has_key(at, key) {
                return Some(at);
            }
        }
        None
    }

    /// Whether there is an entry at a place, and it has the key.
    fn has_key(&self, place: usize, key: &[u8]) -> bool
        ensures { result ≡ passes (λ item. pointwise nat_eq (T.key item) key.now) (slice_get self.now place) }
    {
        match self.get(place) {
            Some(entry) => entry.item().key() == key,
            None => false,
        }
    }

    /// The same of a key whose number this is. An entry with another number is not looked at.
    #[tactic(auto, using(crate::proofs::BlockLemmas::other_number, crate::proofs::BlockLemmas::past_numbered))]
    pub(crate) fn is_at(&self, place: usize, sum: u32, key: &[u8]) -> bool
        requires { sum ≡ sum_of key.now }
        ensures { result ≡ passes (λ item. pointwise nat_eq (T.key item) key.now) (slice_get self.now place) }
    {
        if place >= self.sums.len() {
            return false;
        }
        if self.sums[place] != sum {
            return false;
        }
        self.has_key(place, key)
    }
}

impl<T: Keyed + Drop> Blocks<T> {
    /// The same entries, shared, with room for a block more.
    pub(crate) fn copy(&self, alloc: Global) -> Result<Blocks<T>, NoMemory>
        ensures { IfOk result (λ blocks. blocks ≡ self.now) }
    {
        let mut sums = Vec::with_capacity(alloc, more_than(self.sums.len()))?;
        sums.extend_from_slice(self.sums.as_slice())?;
        let mut shared = Vec::with_capacity(alloc, more_than(self.shared.len()))?;
        add_blocks(&mut shared, self.shared.as_slice())?;
        Ok(Blocks { sums, shared })
    }

    /// The same entries, and behind them those of a block.
    #[tactic(auto, using(crate::proofs::BlockLemmas::joined_more, crate::proofs::BlockLemmas::blocks_more))]
    pub(crate) fn and(self, alloc: Global, entries: Vec<Entry<T>>) -> Result<Blocks<T>, NoMemory>
        requires { length entries.items ≡ BLOCK }
        ensures { IfOk result (λ blocks. blocks ≡ self ++ entries.items) }
    {
        let Blocks {
            mut sums,
            mut shared,
        } = self;
        add_sums(&mut sums, entries.as_slice())?;
        shared.push(Block::of(alloc, entries)?)?;
        Ok(Blocks { sums, shared })
    }

    /// The same entries, with another one at a place.
    #[tactic(auto, using(crate::proofs::BlockLemmas::joined_set, crate::proofs::BlockLemmas::blocks_set, crate::proofs::BlockLemmas::block_within, crate::proofs::BlockLemmas::place_within, crate::proofs::BlockLemmas::length_numbered))]
    pub(crate) fn with(
        self,
        alloc: Global,
        place: usize,
        entry: Entry<T>,
    ) -> Result<Blocks<T>, NoMemory>
        requires { place < length self }
        ensures { IfOk result (λ blocks. blocks ≡ slice_set self place entry) }
    {
        let Blocks {
            mut sums,
            mut shared,
        } = self;
        sums[place] = entry.sum();
        let block = shared[place / BLOCK].with(alloc, place % BLOCK, entry)?;
        shared[place / BLOCK] = block;
        Ok(Blocks { sums, shared })
    }
}

/// Adds the numbers of the keys.
fn add_sums<T: Keyed>(sums: &mut Vec<u32>, entries: &[Entry<T>]) -> Result<(), NoMemory>
    ensures { OnOk result (sums.new.items ≡ sums.old.items ++ map (λ item. sum_of (T.key item)) entries.now) }
{
    for entry in entries {
        sums.push(entry.sum())?;
    }
    Ok(())
}

/// Adds the blocks to a vector, shared.
fn add_blocks<T: Keyed + Drop>(
    blocks: &mut Vec<Block<T>>,
    shared: &[Block<T>],
) -> Result<(), NoMemory>
    ensures { OnOk result (blocks.new.items ≡ blocks.old.items ++ shared.now) }
{
    for block in shared {
        blocks.push(block.shared()?)?;
    }
    Ok(())
}
