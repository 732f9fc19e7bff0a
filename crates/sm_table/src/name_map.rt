//! The serials by the names.
ghost use Rattle.std.specs.Prelude.{◌≡◌, ◌<◌, ◌≤◌, ◌+◌, ◌++◌, ◌∷◌, [], None, IfOk, length, filter};
ghost use Rattle.sm_table.specs.Changes.{row_with};
ghost use Rattle.sm_table.specs.Maps.{serial_of, without_name, stays};

use crate::row_map::RowMap;
use indexmap::IndexMap;
use sm_model::{Moment, NoMemory};
use std::alloc::Global;
use std::marker::Model;

/// Names, in order of creation, and the serials of the rows that have them.
#[derive(Drop)]
pub struct NameMap {
    map: IndexMap<Vec<u8>, u64>,
}

impl Model for NameMap {
    ghost use Rattle.indexmap.specs.IndexMap.{spare};
    ghost use Rattle.sm_table.specs.Maps.{NamesSeen, pairs_of};

    ghost Value = { NamesSeen };

    ghost view = { λ names. record { pairs = pairs_of names.map.entries; room = spare names.map } };
}

impl NameMap {
    /// No names. It takes no memory.
    pub fn new(alloc: Global) -> NameMap
        ensures { result.pairs ≡ [] }
    {
        NameMap {
            map: IndexMap::new(alloc),
        }
    }

    /// No names, with room for so many.
    pub fn with_room(alloc: Global, count: usize) -> Result<NameMap, NoMemory>
        ensures empty { IfOk result (λ names. names.pairs ≡ []) }
        ensures room { IfOk result (λ names. count ≤ names.room) }
    {
        Ok(NameMap {
            map: IndexMap::with_capacity(alloc, count)?,
        })
    }

    /// The serial of the row that has the name.
    #[tactic(auto, using(crate::proofs::MapLemmas::serial_is))]
    pub fn serial_of(&self, name: &[u8]) -> Option<u64>
        ensures { result ≡ serial_of self.now.pairs name.now }
    {
        self.map.get(name).copied()
    }

    /// Adds a name at the end.
    pub fn add(&mut self, name: Vec<u8>, serial: u64)
        requires new { serial_of self.old.pairs name.items ≡ None }
        requires room { 0 < self.old.room }
        ensures pairs { self.new.pairs ≡ self.old.pairs ++ (name.items, serial) ∷ [] }
        ensures room { self.old.room ≤ self.new.room + 1 }
    {
        match self.map.insert(name, serial) {
            Ok(_) => {}
            Err(_) => unreachable!(),
        }
    }

    /// Drops a name.
    #[tactic(auto, using(crate::proofs::MapLemmas::name_removed))]
    pub fn remove(&mut self, name: &[u8])
        ensures pairs { self.new.pairs ≡ without_name self.old.pairs name.now }
        ensures room { self.old.room ≤ self.new.room }
    {
        self.map.shift_remove(name);
    }

    /// Drops the names of the rows that are gone at the moment.
    pub fn sweep(&mut self, rows: &RowMap, moment: Moment)
        ensures pairs { self.new.pairs ≡ filter (λ p. stays (row_with rows.now.list p.1) moment) self.old.pairs }
        ensures room { self.old.room ≤ self.new.room }
    {
        self.map.retain(
            |_name: &Vec<u8>, value: &mut u64| -> bool
                ensures { (result ≡ stays (row_with rows.entry.now.list value.old) moment) × (value.new ≡ value.old) }
            { rows.stays(*value, moment) },
        );
    }

    /// Takes all names of another map.
    pub fn take_all(&mut self, other: &mut NameMap)
        requires empty { self.old.pairs ≡ [] }
        requires room { length other.old.pairs ≤ self.old.room }
        ensures pairs { self.new.pairs ≡ other.old.pairs }
        ensures room { self.old.room ≤ self.new.room + length other.old.pairs }
    {
        let _count = other.map.len();
        match self.map.append(&mut other.map) {
            Ok(()) => {}
            Err(_) => unreachable!(),
        }
    }
}
