//! The rows by their serials.
ghost use Rattle.std.specs.Prelude.{◌≡◌, ◌+◌, ◌<◌, ◌≤◌, ◌^◌, None, [], ◌∷◌, ◌++◌, length, slice_get, IfOk, option_copied};
ghost use Rattle.sm_table.specs.Sweep.{is_gone, swept};
ghost use Rattle.sm_table.specs.Changes.{row_with, replaced, dropped};
ghost use Rattle.sm_table.specs.Kept.{IsRising};
ghost use Rattle.sm_table.specs.Maps.{stays};
ghost use Rattle.sm_table.specs.Dates.{has_room};

use crate::deletion::is_gone;
use crate::kept::Kept;
use indexmap::IndexMap;
use sm_model::{Copied, Moment, NoMemory, SecretRow};
use sm_versions::When;
use sm_versions::pruning::is_full;
use std::alloc::Global;
use std::marker::Model;

/// Rows in order of creation, found by their serials.
#[derive(Drop)]
pub struct RowMap {
    map: IndexMap<u64, Kept>,
}

impl Model for RowMap {
    ghost use Rattle.std.specs.Prelude.{◌≡◌};
    ghost use Rattle.indexmap.specs.IndexMap.{values, spare};
    ghost use Rattle.sm_table.specs.Maps.{RowsSeen, by_serial};

    ghost Value = { RowsSeen };

    ghost view = { λ rows. record { list = values rows.map; room = spare rows.map } };

    ghost invariant = { λ rows. rows.map.entries ≡ by_serial (values rows.map) };
}

impl RowMap {
    /// No rows. It takes no memory.
    pub fn new(alloc: Global) -> RowMap
        ensures { result.list ≡ [] }
    {
        RowMap {
            map: IndexMap::new(alloc),
        }
    }

    /// No rows, with room for so many.
    pub fn with_room(alloc: Global, count: usize) -> Result<RowMap, NoMemory>
        ensures empty { IfOk result (λ rows. rows.list ≡ []) }
        ensures room { IfOk result (λ rows. count ≤ rows.room) }
    {
        Ok(RowMap {
            map: IndexMap::with_capacity(alloc, count)?,
        })
    }

    #[tactic(auto, using(crate::proofs::MapLemmas::values_count))]
    pub fn len(&self) -> usize
        ensures len { result ≡ length self.now.list }
        ensures small { result < 2 ^ 63 }
    {
        self.map.len()
    }

    /// The row at a place, counted from 0.
    #[tactic(auto, using(crate::proofs::MapLemmas::value_at))]
    pub fn at(&self, i: usize) -> Option<&SecretRow>
        ensures { option_copied result ≡ slice_get self.now.list i }
    {
        match self.map.get_index(i) {
            Some((_, kept)) => Some(kept.row()),
            None => None,
        }
    }

    /// The row with this serial, as it is kept.
    #[tactic(auto, using(crate::proofs::MapLemmas::row_is))]
    pub fn kept(&self, serial: u64) -> Option<&Kept>
        ensures { option_copied result ≡ row_with self.now.list serial }
    {
        self.map.get(&serial)
    }

    /// The row with this serial.
    pub fn get(&self, serial: u64) -> Option<&SecretRow>
        ensures { option_copied result ≡ row_with self.now.list serial }
    {
        match self.kept(serial) {
            Some(kept) => Some(kept.row()),
            None => None,
        }
    }

    /// Whether there is a row with this serial, and it is not gone at the moment.
    pub fn stays(&self, serial: u64, moment: Moment) -> bool
        ensures { result ≡ stays (row_with self.now.list serial) moment }
    {
        match self.get(serial) {
            Some(row) => !is_gone(row, moment),
            None => false,
        }
    }

    /// Whether there is a row with this serial, and a version may be added to it then.
    pub fn has_room(&self, serial: u64, when: When) -> bool
        ensures { result ≡ has_room (row_with self.now.list serial) when }
    {
        match self.get(serial) {
            Some(row) => !is_full(row, when),
            None => false,
        }
    }

    /// Adds a row at the end.
    pub fn add(&mut self, kept: Kept)
        requires new { row_with self.old.list kept.serial ≡ None }
        requires room { 0 < self.old.room }
        ensures list { self.new.list ≡ self.old.list ++ kept ∷ [] }
        ensures room { self.old.room ≤ self.new.room + 1 }
    {
        let serial = kept.row().serial;
        match self.map.insert(serial, kept) {
            Ok(_) => {}
            Err(_) => unreachable!(),
        }
    }

    /// Puts the row in the place of the one with its serial.
    pub fn replace(&mut self, kept: Kept)
        ensures list { self.new.list ≡ replaced self.old.list kept }
        ensures room { self.new.room ≡ self.old.room }
    {
        let serial = kept.row().serial;
        match self.map.get_mut(&serial) {
            Some(place) => *place = kept,
            None => {}
        }
    }

    /// Drops the row with this serial.
    pub fn remove(&mut self, serial: u64)
        requires { IsRising self.old.list }
        ensures list { self.new.list ≡ dropped self.old.list serial }
        ensures room { self.old.room ≤ self.new.room }
    {
        self.map.shift_remove(&serial);
    }

    /// Drops the rows whose deletion date is reached.
    pub fn sweep(&mut self, moment: Moment)
        ensures list { self.new.list ≡ swept self.old.list moment }
        ensures room { self.old.room ≤ self.new.room }
    {
        self.map.retain(
            |_serial: &u64, kept: &mut Kept| -> bool
                ensures { (result ≡ stays (Some kept.old) moment) × (kept.new ≡ kept.old) }
            { !is_gone(kept.row(), moment) },
        );
    }

    /// Takes all rows of another map, whose room stays.
    pub fn take_all(&mut self, other: &mut RowMap)
        requires empty { self.old.list ≡ [] }
        requires room { length other.old.list ≤ self.old.room }
        ensures list { self.new.list ≡ other.old.list }
        ensures room { self.old.room ≤ self.new.room + length other.old.list }
    {
        let _count = other.map.len();
        match self.map.append(&mut other.map) {
            Ok(()) => {}
            Err(_) => unreachable!(),
        }
    }

    /// Copies of the rows.
    #[tactic(auto, using(crate::proofs::MapLemmas::more_none, crate::proofs::MapLemmas::more))]
    pub fn copies(&self, alloc: Global) -> Result<Vec<SecretRow>, NoMemory>
        ensures { IfOk result (λ vec. vec.items ≡ self.now.list) }
    {
        let mut vec = Vec::with_capacity(alloc, self.len())?;
        for i in 0..self.len() {
            match self.at(i) {
                Some(row) => vec.push(row.copy(alloc)?)?,
                None => {}
            }
        }
        Ok(vec)
    }
}
