//! Where entries stand that are made again.
ghost use Rattle.std.specs.Prelude.{◌≡◌, ◌≤◌, ◌∷◌, [], IfOk, IfErr, OnOk, OnErr};
ghost use Rattle.sm_base.specs.declared.moment.TheConstants.{LAST_READING};
ghost use Rattle.sm_core.specs.Histories.{InTime};
ghost use Rattle.sm_table.specs.Sound.{Sound};
ghost use Rattle.sm_base_check.specs.Bases.{IsSound};
ghost use Rattle.sm_recovery.specs.Following.{origin, after_entry, after_all, MayCome, OnRefused, StopsAt};

use sm_core::{Replayed, again};
use sm_model::{Entry, Moment, NoMemory};
use sm_record::Base;
use sm_table::Table;
use std::alloc::Global;
use std::marker::Model;

/// The rows that entries made, the moment of the last of them, and how many they are. Contracts see it as the base that
/// further entries may be counted from, which is sound.
#[derive(Drop)]
pub struct ReplayState {
    table: Table,
    last: Moment,
    entries: u64,
}

impl Model for ReplayState {
    ghost use Rattle.sm_record.specs.declared.base.Base.{Base};
    ghost use Rattle.sm_base_check.specs.Bases.{IsSound};

    ghost Value = { Base };

    ghost view = { λ s. record { rows = s.table; last = s.last; entries = s.entries } };

    ghost invariant = { λ s. IsSound (record { rows = s.table; last = s.last; entries = s.entries }) };
}

/// Why entries were not made again.
#[derive(Clone, Copy, Debug, PartialEq, Eq)]
pub enum Stopped {
    /// The entry of this number, counted from 0, is not legal behind those before it.
    Illegal(usize),
    Memory,
}

/// Why one entry was not made again.
#[derive(Clone, Copy, Debug, PartialEq, Eq)]
pub enum Refusal {
    Illegal,
    Memory,
}

impl ReplayState {
    /// Before all entries. It takes no memory.
    #[tactic(auto, using(crate::proofs::FollowLemmas::nothing_sound))]
    pub fn new(alloc: Global) -> ReplayState
        ensures { result ≡ origin }
    {
        ReplayState {
            table: Table::new(alloc),
            last: Moment(0),
            entries: 0,
        }
    }

    /// Behind so many entries, of which the last was made at the moment and which left these rows. It takes no memory.
    pub fn over(table: Table, last: Moment, entries: u64) -> ReplayState
        requires rows { Sound table }
        requires last { last.0 ≤ LAST_READING }
        ensures { result ≡ record { rows = table; last = last; entries = entries } }
    {
        ReplayState {
            table,
            last,
            entries,
        }
    }

    /// Behind the entries of a sound base.
    pub fn of(alloc: Global, base: &Base) -> Result<ReplayState, NoMemory>
        requires { IsSound base.now }
        ensures { IfOk result (λ replayed. replayed ≡ base.now) }
    {
        let table = Table::of(alloc, &base.rows)?;
        Ok(ReplayState::over(table, base.last, base.entries))
    }

    /// The rows. It takes no memory.
    pub fn table(&self) -> &Table
        ensures { result.now ≡ self.now.rows }
    {
        &self.table
    }

    /// The moment of the last entry.
    pub fn last(&self) -> Moment
        ensures { result ≡ self.now.last }
    {
        self.last
    }

    /// How many entries there were.
    pub fn entries(&self) -> u64
        ensures { result ≡ self.now.entries }
    {
        self.entries
    }

    /// The rows, the last moment and how many entries there were. It takes no memory.
    pub fn into_parts(self) -> (Table, Moment, u64)
        ensures rows { result.0 ≡ self.rows }
        ensures last { result.1 ≡ self.last }
        ensures entries { result.2 ≡ self.entries }
        ensures sound { IsSound self }
    {
        let ReplayState {
            table,
            last,
            entries,
        } = self;
        (table, last, entries)
    }

    /// A copy of it, from which entries may be counted on.
    pub fn base(&self) -> Result<Base, NoMemory>
        ensures base { IfOk result (λ base. base ≡ self.now) }
        ensures sound { IfOk result IsSound }
    {
        let rows = self.table.rows()?;
        Ok(Base {
            rows,
            last: self.last,
            entries: self.entries,
        })
    }

    /// Makes one entry again, where it may follow.
    #[tactic(auto, using(crate::proofs::FollowLemmas::one_comes))]
    pub fn follow(&mut self, alloc: Global, entry: &Entry) -> Result<(), Refusal>
        requires { entry.now.moment.0 ≤ LAST_READING }
        ensures after { OnOk result (self.new ≡ after_entry self.old entry.now) }
        ensures legal { OnOk result (MayCome self.old (entry.now ∷ [])) }
        ensures stays { OnErr result (self.new ≡ self.old) }
        ensures refused { OnRefused result (MayCome self.old (entry.now ∷ []) → ⊥) }
    {
        if entry.moment.0 < self.last.0 {
            return Err(Refusal::Illegal);
        }
        if self.entries == u64::MAX {
            return Err(Refusal::Illegal);
        }
        match again(alloc, &self.table, entry) {
            Replayed::Accept(change) => match self.table.prepare(change) {
                Ok(prepared) => {
                    self.table.commit(prepared, entry.moment);
                    self.last = entry.moment;
                    self.entries += 1;
                    Ok(())
                }
                Err(_) => Err(Refusal::Memory),
            },
            Replayed::Refuse => Err(Refusal::Illegal),
            Replayed::Memory => Err(Refusal::Memory),
        }
    }

    /// Makes entries again, one after the other, each judged at the rows of those before it.
    #[tactic(auto, using(crate::proofs::FollowLemmas::in_time_at, crate::proofs::FollowLemmas::all_gone))]
    pub fn go_on(self, alloc: Global, entries: &[Entry]) -> Result<ReplayState, Stopped>
        requires { InTime entries.now }
        ensures after { IfOk result (λ replayed. replayed ≡ after_all self entries.now) }
        ensures legal { IfOk result (λ replayed. MayCome self entries.now) }
        ensures stopped { IfErr result (StopsAt self entries.now) }
    {
        let mut replayed = self;
        for k in 0..entries.len() {
            match replayed.follow(alloc, &entries[k]) {
                Ok(()) => {}
                Err(Refusal::Illegal) => return Err(Stopped::Illegal(k)),
                Err(Refusal::Memory) => return Err(Stopped::Memory),
            }
        }
        Ok(replayed)
    }
}
