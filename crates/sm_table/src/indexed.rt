//! Rows, found by their serials and their names.
ghost use Rattle.std.specs.Prelude.{◌≡◌, ◌+◌, ◌<◌, ◌≤◌, ◌^◌, ℕ, suc, None, [], ◌∷◌, ◌++◌, length, IsTrue, IsSome, IfOk, IfSome, option_copied, nat_eq, if◌then◌else◌, ◌-◌};
ghost use Rattle.sm_versions.specs.Texts.{once};
ghost use Rattle.sm_table.specs.Sweep.{swept};
ghost use Rattle.sm_table.specs.Found.{row_named};
ghost use Rattle.sm_table.specs.Changes.{row_with, replaced, dropped};
ghost use Rattle.sm_table.specs.Kept.{row_names, IsRising};
ghost use Rattle.sm_table.specs.Indexed.{behind, room_left, HasRoom, IsIndexed, AreSpareMaps};
ghost use Rattle.sm_table.specs.Maps.{without_row};
ghost use Rattle.sm_table.specs.Ready.{CanAdd, IsAdded};
ghost use Rattle.sm_table.specs.Signs.{SignsRoom};
ghost use Rattle.sm_table.specs.Dates.{deletions_of, first_due, reached, without_first};

use crate::dates;
use crate::kept::Kept;
use crate::name_map::NameMap;
use crate::row_map::RowMap;
use crate::signs::Signs;
use sm_model::{Moment, NoMemory, SecretRow};
use std::alloc::Global;

/// The most rows for which there is room behind one that came with new room.
const MOST_BEHIND: u64 = 1023;

/// Rows in order of creation.
#[derive(Drop)]
pub struct Indexed {
    pub rows: RowMap,
    pub names: NameMap,
    pub signs: Signs,
    /// For how many more rows there is room.
    pub left: u64,
}

/// Empty room, into which the rows move where none is left.
#[derive(Drop)]
pub struct SpareMaps {
    pub rows: RowMap,
    pub names: NameMap,
    pub signs: Signs,
}

/// A row to be added, and the memory that it takes.
#[derive(Drop)]
pub struct Added {
    pub kept: Kept,
    pub name: Vec<u8>,
    /// Where no room is left, room for it and all others.
    pub room: Option<SpareMaps>,
}

/// A change with the memory that it takes.
#[derive(Drop)]
pub enum Step {
    Add(Added),
    Replace(Kept),
    Drop(u64),
    Nothing,
}

impl Indexed {
    /// No rows. It takes no memory.
    pub fn new(alloc: Global) -> Indexed
        ensures kept { IsIndexed result }
        ensures rows { result.rows.list ≡ [] }
        ensures left { result.left ≡ 0 }
    {
        Indexed {
            rows: RowMap::new(alloc),
            names: NameMap::new(alloc),
            signs: Signs::new(alloc),
            left: 0,
        }
    }

    /// No rows, with room for so many, of which some have not been made yet.
    pub fn with_room(alloc: Global, count: usize, left: u64) -> Result<Indexed, NoMemory>
        ensures kept { IfOk result IsIndexed }
        ensures rows { IfOk result (λ indexed. indexed.rows.list ≡ []) }
        ensures left { IfOk result (λ indexed. indexed.left ≡ left) }
        ensures room { IfOk result (λ indexed. HasRoom indexed count) }
    {
        let SpareMaps { rows, names, signs } = SpareMaps::for_rows(alloc, count)?;
        Ok(Indexed {
            rows,
            names,
            signs,
            left,
        })
    }

    /// The row with the name, whether it is gone or not.
    #[tactic(auto, using(crate::proofs::IndexedLemmas::named_some, crate::proofs::IndexedLemmas::named_none))]
    pub fn named(&self, name: &[u8]) -> Option<&SecretRow>
        requires kept { IsIndexed self.now }
        requires rising { IsRising self.now.rows.list }
        ensures { option_copied result ≡ row_named self.now.rows.list name.now }
    {
        match self.names.serial_of(name) {
            Some(serial) => self.rows.get(serial),
            None => None,
        }
    }

    /// How many rows are there at the moment.
    pub fn count_at(&self, moment: Moment) -> usize
        requires { IsIndexed self.now }
        ensures { result ≡ length (swept self.now.rows.list moment) }
    {
        self.rows.len() - self.count_gone(moment)
    }

    /// How many rows are gone at the moment.
    fn count_gone(&self, moment: Moment) -> usize
        requires { IsIndexed self.now }
        ensures gone { result ≡ reached (deletions_of self.now.rows.list) moment }
        ensures within { result ≤ length self.now.rows.list }
    {
        dates::reached(self.signs.deletions.as_slice(), moment)
    }

    /// The serial of the first row that is due at the moment for a token that none of its versions has.
    pub fn first_due(&self, moment: Moment) -> Option<u64>
        requires kept { IsIndexed self.now }
        requires rising { IsRising self.now.rows.list }
        ensures { result ≡ first_due self.now.rows.list moment }
    {
        dates::lowest_due(&self.rows, moment, self.signs.dates.as_slice())
    }

    /// A row to be added, with all the memory that this takes.
    pub fn added(&self, alloc: Global, row: SecretRow) -> Result<Added, NoMemory>
        requires { self.now.left ≡ room_left row.serial }
        ensures row { IfOk result (λ added. added.kept ≡ row) }
        ensures brought { IfOk result (λ added. IsAdded added row.serial (length self.now.rows.list)) }
    {
        let room = self.room_behind(alloc, row.serial)?;
        let name = Vec::from_slice(alloc, row.name.as_text().as_bytes())?;
        let kept = Kept::of(alloc, row)?;
        Ok(Added { kept, name, room })
    }

    /// Room for all rows, the one with the serial, and those behind it that come without new room, where none is left.
    fn room_behind(&self, alloc: Global, serial: u64) -> Result<Option<SpareMaps>, NoMemory>
        requires { self.now.left ≡ room_left serial }
        ensures needed { IfOk result (λ room. room_left serial ≡ 0 → IsSome room) }
        ensures enough { IfOk result (λ room. IfSome room
            (λ r. AreSpareMaps r (length self.now.rows.list + 1 + behind serial))) }
        ensures only { IfOk result (λ room. IsSome room → room_left serial ≡ 0) }
    {
        if self.left > 0 {
            return Ok(None);
        }
        let room = SpareMaps::for_rows(alloc, self.rows.len() + 1 + behind(serial) as usize)?;
        Ok(Some(room))
    }

    /// Adds a row at the end.
    pub fn add(&mut self, added: Added)
        requires { CanAdd self.old added }
        ensures kept { IsIndexed self.new }
        ensures rows { self.new.rows.list ≡ self.old.rows.list ++ added.kept ∷ [] }
        ensures left { self.new.left ≡ room_left (suc added.kept.serial) }
        ensures room { HasRoom self.new (room_left (suc added.kept.serial)) }
    {
        let Added { kept, name, room } = added;
        let serial = kept.row().serial;
        self.make_room(room, serial);
        self.left = left_behind(self.left, serial);
        self.push(kept, name);
    }

    /// Adds a row and its name at the end, where there is room.
    pub fn push(&mut self, kept: Kept, name: Vec<u8>)
        requires kept { IsIndexed self.old }
        requires new_serial { row_with self.old.rows.list kept.serial ≡ None }
        requires new_name { row_named self.old.rows.list kept.name ≡ None }
        requires rising { IsRising (self.old.rows.list ++ kept ∷ []) }
        requires name { name.items ≡ kept.name }
        requires room { HasRoom self.old 1 }
        ensures kept { IsIndexed self.new }
        ensures rows { self.new.rows.list ≡ self.old.rows.list ++ kept ∷ [] }
        ensures left { self.new.left ≡ self.old.left }
        ensures room { (count : ℕ) → HasRoom self.old (suc count) → HasRoom self.new count }
    {
        let serial = kept.row().serial;
        self.signs.add(&self.rows, kept.row());
        self.names.add(name, serial);
        self.rows.add(kept);
    }

    /// Moves the rows into the room, if there is some, so that there is room for the one with the serial and those
    /// behind it that come without new room.
    fn make_room(&mut self, room: Option<SpareMaps>, serial: u64)
        requires kept { IsIndexed self.old }
        requires left { HasRoom self.old (room_left serial) }
        requires needed { room_left serial ≡ 0 → IsSome room }
        requires enough { IfSome room (λ r. AreSpareMaps r (length self.old.rows.list + 1 + behind serial)) }
        ensures kept { IsIndexed self.new }
        ensures rows { self.new.rows.list ≡ self.old.rows.list }
        ensures left { self.new.left ≡ self.old.left }
        ensures room { HasRoom self.new (suc (room_left (suc serial))) }
        ensures in_place { room ≡ None → self.new ≡ self.old }
    {
        match room {
            Some(room) => self.move_into(room),
            None => {}
        }
    }

    /// Moves the rows into the room.
    fn move_into(&mut self, room: SpareMaps)
        requires kept { IsIndexed self.old }
        requires room { AreSpareMaps room (length self.old.rows.list) }
        ensures kept { IsIndexed self.new }
        ensures rows { self.new.rows.list ≡ self.old.rows.list }
        ensures left { self.new.left ≡ self.old.left }
        ensures rows_room { room.rows.room ≤ self.new.rows.room + length self.old.rows.list }
        ensures names_room { room.names.room ≤ self.new.names.room + length self.old.rows.list }
        ensures signs_room { (count : ℕ) → SignsRoom room.signs count → SignsRoom self.new.signs count }
    {
        let SpareMaps {
            mut rows,
            mut names,
            signs,
        } = room;
        let signs = self.signs.moved(signs);
        rows.take_all(&mut self.rows);
        names.take_all(&mut self.names);
        self.rows = rows;
        self.names = names;
        self.signs = signs;
    }

    /// Drops the rows whose deletion date is reached. Where one row is gone, the others are not looked at.
    #[tactic(auto, using(crate::proofs::DeletionLemmas::one_gone, crate::proofs::DeletionLemmas::all_stay))]
    pub fn sweep(&mut self, moment: Moment)
        requires kept { IsIndexed self.old }
        requires rising { IsRising self.old.rows.list }
        requires names { IsTrue (once (row_names self.old.rows.list)) }
        requires room { HasRoom self.old 0 }
        ensures kept { IsIndexed self.new }
        ensures rows { self.new.rows.list ≡ swept self.old.rows.list moment }
        ensures left { self.new.left ≡ self.old.left }
        ensures room { (count : ℕ) → HasRoom self.old count → HasRoom self.new count }
    {
        let count = self.count_gone(moment);
        if count == 1 {
            self.drop_first();
        } else if count > 1 {
            self.sweep_all(moment);
        }
    }

    /// Drops the row with the first deletion date.
    #[tactic(auto, using(crate::proofs::DeletionLemmas::first_some, crate::proofs::DeletionLemmas::first_none))]
    fn drop_first(&mut self)
        requires kept { IsIndexed self.old }
        requires rising { IsRising self.old.rows.list }
        requires names { IsTrue (once (row_names self.old.rows.list)) }
        requires room { HasRoom self.old 0 }
        ensures kept { IsIndexed self.new }
        ensures rows { self.new.rows.list ≡ without_first self.old.rows.list (deletions_of self.old.rows.list) }
        ensures left { self.new.left ≡ self.old.left }
        ensures room { (count : ℕ) → HasRoom self.old count → HasRoom self.new count }
    {
        match self.signs.first_deleted() {
            Some(serial) => self.drop_row(serial),
            None => {}
        }
    }

    /// Drops the rows whose deletion date is reached, by a walk over all.
    fn sweep_all(&mut self, moment: Moment)
        requires kept { IsIndexed self.old }
        requires rising { IsRising self.old.rows.list }
        ensures kept { IsIndexed self.new }
        ensures rows { self.new.rows.list ≡ swept self.old.rows.list moment }
        ensures left { self.new.left ≡ self.old.left }
        ensures room { (count : ℕ) → HasRoom self.old count → HasRoom self.new count }
    {
        self.names.sweep(&self.rows, moment);
        self.signs.drop_gone(&self.rows, moment);
        self.rows.sweep(moment);
    }

    /// Puts the row in the place of the one with its serial.
    pub fn replace(&mut self, kept: Kept)
        requires kept { IsIndexed self.old }
        requires rising { IsRising self.old.rows.list }
        requires names { row_names (replaced self.old.rows.list kept) ≡ row_names self.old.rows.list }
        requires room { HasRoom self.old 0 }
        ensures kept { IsIndexed self.new }
        ensures rows { self.new.rows.list ≡ replaced self.old.rows.list kept }
        ensures left { self.new.left ≡ self.old.left }
        ensures room { (count : ℕ) → HasRoom self.old count → HasRoom self.new count }
    {
        self.signs.replace(&self.rows, kept.row());
        self.rows.replace(kept);
    }

    /// Drops the row with this serial.
    pub fn drop_row(&mut self, serial: u64)
        requires kept { IsIndexed self.old }
        requires rising { IsRising self.old.rows.list }
        requires names { IsTrue (once (row_names self.old.rows.list)) }
        requires room { HasRoom self.old 0 }
        ensures kept { IsIndexed self.new }
        ensures rows { self.new.rows.list ≡ dropped self.old.rows.list serial }
        ensures left { self.new.left ≡ self.old.left }
        ensures room { (count : ℕ) → HasRoom self.old count → HasRoom self.new count }
    {
        drop_name(&mut self.names, self.rows.get(serial));
        self.signs.remove(&self.rows, serial);
        self.rows.remove(serial);
    }
}

impl SpareMaps {
    /// Empty room for so many rows.
    fn for_rows(alloc: Global, count: usize) -> Result<SpareMaps, NoMemory>
        ensures { IfOk result (λ room. AreSpareMaps room count) }
    {
        let rows = RowMap::with_room(alloc, count)?;
        let names = NameMap::with_room(alloc, count)?;
        let signs = Signs::with_room(alloc, count)?;
        Ok(SpareMaps { rows, names, signs })
    }
}

/// Drops the name of the row, if there is one.
fn drop_name(names: &mut NameMap, row: Option<&SecretRow>)
    ensures pairs { names.new.pairs ≡ without_row names.old.pairs (option_copied row.entry) }
    ensures room { names.old.room ≤ names.new.room }
{
    match row {
        Some(row) => names.remove(row.name.as_text().as_bytes()),
        None => {}
    }
}

/// For how many rows there is room behind the one with this serial, where it came with new room.
fn behind(serial: u64) -> u64
    ensures { result ≡ behind serial }
{
    serial.min(MOST_BEHIND)
}

/// For how many more rows there is room behind the one with this serial, where there was room for so many.
pub fn left_behind(left: u64, serial: u64) -> u64
    ensures { result ≡ (if nat_eq left 0 then behind serial else left - 1) }
{
    if left == 0 { behind(serial) } else { left - 1 }
}
