//! What a list has of the entries that it shares with its copies.
ghost use Rattle.std.specs.Prelude.{◌≡◌, ℕ, ◌+◌, ◌-◌, ◌<◌, ◌≤◌, ◌^◌, ◌++◌, [], IfOk, OnOk, OnErr, IsTrue, length, filter, slice_get, slice_set, option_copied, nat_eq, vec_len, vec_capacity};
ghost use Rattle.std.specs.Cmp.Lexicographic.{pointwise};
ghost use Rattle.std.specs.List.{position, range_with_len};
ghost use Rattle.sm_base.specs.Blocks.{passes, picked, chosen, AreWithin, AreChosen};
ghost use Rattle.sm_base.specs.Sums.{sum_of};

use crate::blocks::{BLOCK, Blocks, more_than};
use crate::entry::{Entry, Keyed};
use crate::memory::NoMemory;
use crate::picks::{Picks, is_picked};
use std::alloc::Global;
use std::marker::Model;
use std::sync::Arc;

/// Blocks of entries that copies share whole, for one count.
#[derive(Drop)]
struct Head<T: Keyed> {
    /// Nothing where there are none, which takes no memory.
    blocks: Option<Arc<Blocks<T>>>,
}

impl<T: Keyed> Model for Head<T> {
    ghost use Rattle.std.specs.Prelude.{List};
    ghost use Rattle.std.specs.Arc.{arc_value};
    ghost use Rattle.sm_base.specs.Blocks.{items_of};

    ghost Value = { List T };

    ghost view = { λ h. items_of h.blocks (λ a. arc_value a) };
}

impl<T: Keyed> Head<T> {
    fn empty() -> Head<T>
        ensures { result ≡ [] }
    {
        Head { blocks: None }
    }

    fn len(&self) -> usize
        ensures count { result ≡ length self.now }
        ensures bound { result < 2 ^ 63 }
    {
        match &self.blocks {
            Some(blocks) => blocks.len(),
            None => 0,
        }
    }

    fn get(&self, place: usize) -> Option<&Entry<T>>
        ensures { option_copied result ≡ slice_get self.now place }
    {
        match &self.blocks {
            Some(blocks) => blocks.get(place),
            None => None,
        }
    }

    /// The place of the first entry with the key, whose number this is.
    fn position(&self, sum: u32, key: &[u8]) -> Option<usize>
        requires { sum ≡ sum_of key.now }
        ensures { result ≡ position (λ item. pointwise nat_eq (T.key item) key.now) self.now }
    {
        match &self.blocks {
            Some(blocks) => blocks.position(sum, key),
            None => None,
        }
    }

    /// Whether there is an entry at a place, and it has the key, whose number this is.
    fn is_at(&self, place: usize, sum: u32, key: &[u8]) -> bool
        requires { sum ≡ sum_of key.now }
        ensures { result ≡ passes (λ item. pointwise nat_eq (T.key item) key.now) (slice_get self.now place) }
    {
        match &self.blocks {
            Some(blocks) => blocks.is_at(place, sum, key),
            None => false,
        }
    }

    /// The same entries, shared.
    fn shared(&self) -> Result<Head<T>, NoMemory>
        ensures { IfOk result (λ head. head ≡ self.now) }
    {
        match &self.blocks {
            Some(blocks) => {
                let blocks = Arc::try_clone(blocks)?;
                Ok(Head {
                    blocks: Some(blocks),
                })
            }
            None => Ok(Head { blocks: None }),
        }
    }
}

impl<T: Keyed + Drop> Head<T> {
    fn of(alloc: Global, blocks: Blocks<T>) -> Result<Head<T>, NoMemory>
        ensures { IfOk result (λ head. head ≡ blocks) }
    {
        let blocks = Arc::new(alloc, blocks)?;
        Ok(Head {
            blocks: Some(blocks),
        })
    }

    /// The same entries, and behind them those of a block.
    fn and(&self, alloc: Global, entries: Vec<Entry<T>>) -> Result<Head<T>, NoMemory>
        requires { length entries.items ≡ BLOCK }
        ensures { IfOk result (λ head. head ≡ self.now ++ entries.items) }
    {
        let blocks = match &self.blocks {
            Some(blocks) => blocks.copy(alloc)?,
            None => Blocks::with_room(alloc, BLOCK)?,
        };
        Head::of(alloc, blocks.and(alloc, entries)?)
    }

    /// The same entries, with another one at a place.
    fn with(&self, alloc: Global, place: usize, entry: Entry<T>) -> Result<Head<T>, NoMemory>
        requires { place < length self.now }
        ensures { IfOk result (λ head. head ≡ slice_set self.now place entry) }
    {
        match &self.blocks {
            Some(blocks) => Head::of(alloc, blocks.copy(alloc)?.with(alloc, place, entry)?),
            None => Err(NoMemory),
        }
    }
}

/// Entries that a list shares with its copies, and has at its front. Those that are taken out stay shared until the
/// list gathers the others.
#[derive(Drop)]
pub(crate) struct Front<T: Keyed> {
    head: Head<T>,
    /// Where the entries stand among those that are shared, in order, and none where they are all of them. There is
    /// always room for all.
    places: Vec<u32>,
}

impl<T: Keyed> Model for Front<T> {
    ghost use Rattle.std.specs.Prelude.{List, vec_capacity};
    ghost use Rattle.sm_base.specs.Blocks.{chosen, AreChosen};

    ghost Value = { List T };

    ghost view = { λ f. chosen f.head f.places.items };

    ghost invariant = { λ f. AreChosen f.head (vec_capacity f.places) f.places.items };
}

impl<T: Keyed> Front<T> {
    /// No entries. It takes no memory.
    pub(crate) fn empty(alloc: Global) -> Front<T>
        ensures { result ≡ [] }
    {
        Front {
            head: Head::empty(),
            places: Vec::new(alloc),
        }
    }

    #[tactic(auto, using(crate::proofs::ChosenLemmas::whole, crate::proofs::ChosenLemmas::length_told))]
    pub(crate) fn len(&self) -> usize
        ensures count { result ≡ length self.now }
        ensures bound { result < 2 ^ 63 }
    {
        if self.places.is_empty() {
            self.head.len()
        } else {
            self.places.len()
        }
    }

    /// Whether most entries that are shared were taken out, so that the list should gather the others.
    pub(crate) fn is_sparse(&self) -> bool {
        !self.places.is_empty() && self.places.len() < self.head.len() / 2
    }

    /// The entry at a place, counted from 0.
    #[tactic(auto, using(crate::proofs::ChosenLemmas::whole, crate::proofs::ChosenLemmas::got_told, crate::proofs::ChosenLemmas::past_told))]
    pub(crate) fn get(&self, place: usize) -> Option<&Entry<T>>
        ensures { option_copied result ≡ slice_get self.now place }
    {
        if self.places.is_empty() {
            return self.head.get(place);
        }
        if place >= self.places.len() {
            return None;
        }
        self.head.get(self.places[place] as usize)
    }

    /// The place of the first entry with the key, whose number this is.
    #[tactic(auto, using(crate::proofs::ChosenLemmas::whole))]
    pub(crate) fn position(&self, sum: u32, key: &[u8]) -> Option<usize>
        requires { sum ≡ sum_of key.now }
        ensures { result ≡ position (λ item. pointwise nat_eq (T.key item) key.now) self.now }
    {
        if self.places.is_empty() {
            return self.head.position(sum, key);
        }
        self.position_among(sum, key)
    }

    /// The same, where the places are told.
    #[tactic(auto, using(crate::proofs::PlaceLemmas::not_passed, crate::proofs::PlaceLemmas::passed_at))]
    fn position_among(&self, sum: u32, key: &[u8]) -> Option<usize>
        requires { sum ≡ sum_of key.now }
        ensures { result ≡ position (λ item. pointwise nat_eq (T.key item) key.now) self.now }
    {
        for place in 0..self.len() {
            if self.is_at(place, sum, key) {
                return Some(place);
            }
        }
        None
    }

    /// Whether there is an entry at a place, and it has the key, whose number this is.
    #[tactic(auto, using(crate::proofs::ChosenLemmas::whole, crate::proofs::ChosenLemmas::got_told, crate::proofs::ChosenLemmas::past_told))]
    fn is_at(&self, place: usize, sum: u32, key: &[u8]) -> bool
        requires { sum ≡ sum_of key.now }
        ensures { result ≡ passes (λ item. pointwise nat_eq (T.key item) key.now) (slice_get self.now place) }
    {
        if self.places.is_empty() {
            return self.head.is_at(place, sum, key);
        }
        if place >= self.places.len() {
            return false;
        }
        self.head.is_at(self.places[place] as usize, sum, key)
    }
}

impl<T: Keyed + Drop> Front<T> {
    /// The same entries, shared.
    pub(crate) fn shared(&self, alloc: Global) -> Result<Front<T>, NoMemory>
        ensures { IfOk result (λ front. front ≡ self.now) }
    {
        let head = self.head.shared()?;
        let mut places = room_for(alloc, head.len())?;
        places.extend_from_slice(self.places.as_slice())?;
        Ok(Front { head, places })
    }

    /// All entries of the blocks.
    pub(crate) fn of(alloc: Global, blocks: Blocks<T>) -> Result<Front<T>, NoMemory>
        ensures { IfOk result (λ front. front ≡ blocks) }
    {
        let head = Head::of(alloc, blocks)?;
        let places = room_for(alloc, head.len())?;
        Ok(Front { head, places })
    }

    /// The same entries, and behind them those of a block.
    #[tactic(auto, using(crate::proofs::ChosenLemmas::whole))]
    pub(crate) fn and(&self, alloc: Global, entries: Vec<Entry<T>>) -> Result<Front<T>, NoMemory>
        requires { length entries.items ≡ BLOCK }
        ensures { IfOk result (λ front. front ≡ self.now ++ entries.items) }
    {
        let head = self.head.and(alloc, entries)?;
        let mut places = room_for(alloc, head.len())?;
        if !self.places.is_empty() {
            places.extend_from_slice(self.places.as_slice())?;
            tell(&mut places, self.head.len(), head.len());
        }
        Ok(Front { head, places })
    }

    /// Puts an entry at a place. Without memory all stay.
    #[tactic(auto, using(crate::proofs::ChosenLemmas::whole, crate::proofs::ChosenLemmas::replaced_told, crate::proofs::ChosenLemmas::place_told, crate::proofs::ChosenLemmas::replaced_chosen))]
    pub(crate) fn replace(
        &mut self,
        alloc: Global,
        place: usize,
        entry: Entry<T>,
    ) -> Result<(), NoMemory>
        requires { place < length self.old }
        ensures ok { OnOk result (self.new ≡ slice_set self.old place entry) }
        ensures err { OnErr result (self.new ≡ self.old) }
    {
        let at = if self.places.is_empty() {
            place
        } else {
            self.places[place] as usize
        };
        self.head = self.head.with(alloc, at, entry)?;
        Ok(())
    }

    /// Takes out the entries whose items are not picked. It takes no memory.
    #[tactic(auto, using(crate::proofs::ChosenLemmas::whole, crate::proofs::ChosenLemmas::told, crate::proofs::ChosenLemmas::none_left))]
    pub(crate) fn retain<P: Picks<T>>(&mut self, picks: &P)
        ensures { self.new ≡ filter (P.picked picks.now) self.old }
    {
        if self.places.is_empty() && are_picked(&self.head, picks) {
            return;
        }
        tell_all(&self.head, &mut self.places);
        take_out(&self.head, &mut self.places, picks);
        if self.places.is_empty() {
            self.head = Head::empty();
        }
    }
}

/// Whether the items of all entries are picked.
fn are_picked<T: Keyed, P: Picks<T>>(head: &Head<T>, picks: &P) -> bool
    ensures { IsTrue result → filter (P.picked picks.now) head.now ≡ head.now }
{
    for at in 0..head.len() {
        if !is_picked(head.get(at), picks) {
            return false;
        }
    }
    true
}

/// Tells the places of all entries, for which there is room, where none are told.
#[tactic(auto, using(crate::proofs::ChosenLemmas::all_within, crate::proofs::ChosenLemmas::all_picked))]
fn tell_all<T: Keyed>(head: &Head<T>, places: &mut Vec<u32>)
    requires { AreChosen head.now (vec_capacity places.old) places.old.items }
    ensures told { picked head.now places.new.items ≡ chosen head.now places.old.items }
    ensures within { AreWithin 0 (length head.now) places.new.items }
    ensures room { vec_capacity places.old ≤ vec_capacity places.new }
{
    if places.is_empty() {
        tell(places, 0, head.len());
    }
}

/// Takes out the places of the entries whose items are not picked.
#[tactic(auto, using(crate::proofs::ChosenLemmas::kept_is, crate::proofs::ChosenLemmas::kept_are))]
fn take_out<T: Keyed, P: Picks<T>>(head: &Head<T>, places: &mut Vec<u32>, picks: &P)
    requires { AreWithin 0 (length head.now) places.old.items }
    ensures left { picked head.now places.new.items ≡ filter (P.picked picks.now) (picked head.now places.old.items) }
    ensures within { AreWithin 0 (length head.now) places.new.items }
    ensures room { vec_capacity places.new ≡ vec_capacity places.old }
{
    places.retain(|at| is_picked(head.get(*at as usize), picks));
}

/// An empty vector with room for so many places, where each of them can be told. It takes no memory for none.
fn room_for(alloc: Global, count: usize) -> Result<Vec<u32>, NoMemory>
    ensures none { IfOk result (λ places. places.items ≡ []) }
    ensures room { IfOk result (λ places. count ≤ vec_capacity places) }
    ensures counted { OnOk result (count < 2 ^ 32) }
{
    if u32::try_from(count).is_err() {
        return Err(NoMemory);
    }
    let room = if count == 0 { 0 } else { more_than(count) };
    Ok(Vec::with_capacity(alloc, room)?)
}

/// Tells the places from one on and below another, for which there is room.
fn tell(places: &mut Vec<u32>, from: usize, to: usize)
    requires order { from ≤ to }
    requires room { vec_len places.old + (to - from) ≤ vec_capacity places.old }
    requires counted { to < 2 ^ 32 }
    ensures told { places.new.items ≡ places.old.items ++ range_with_len from (to - from) }
    ensures room { vec_capacity places.old ≤ vec_capacity places.new }
{
    for at in from..to {
        match places.push(at as u32) {
            Ok(()) => {}
            Err(_) => unreachable!(),
        }
    }
}
