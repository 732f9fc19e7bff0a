//! The table of all secrets.
ghost use Rattle.std.specs.Prelude.{◌≡◌, ℕ, Some, [], IfOk, IfSome, length, option_copied, option_map};
ghost use Rattle.sm_table.specs.Sweep.{sweep, swept};
ghost use Rattle.sm_table.specs.Found.{found, found_arn, row_named};
ghost use Rattle.sm_table.specs.Changes.{changed, CanMake, StandsAt, row_with, PreparedChange};
ghost use Rattle.sm_table.specs.Kept.{RowsKept, ChangeKept, NamesKept, IsRowOf};
ghost use Rattle.sm_table.specs.Ready.{change_of, HasBrought};
ghost use Rattle.sm_table.specs.Jobs.{job_serials};
ghost use Rattle.sm_table.specs.Dates.{first_due};
ghost use Rattle.sm_table.specs.Sound.{Sound, ChangeSound};
ghost use Rattle.sm_versions.specs.Find.{looked_up, lookup};
ghost use Rattle.sm_versions.specs.Sound.{RowSound};

use crate::gathered::gathered;
use crate::indexed::{Indexed, Step};
use crate::kept::Kept;
use crate::room::room_left;
use crate::search;
use sm_model::{
    Arn, Change, Label, List, Moment, Name, NoMemory, RowList, Rows, SecretId, SecretRow, Token,
};
use sm_versions::Found;
use std::alloc::Global;
use std::marker::Model;
use std::snapshot::Snapshot;

/// All secrets, in order of creation, which contracts see as the rows.
pub struct Table {
    alloc: Global,
    next: u64,
    secrets: Indexed,
}

/// Who lets a table go makes one call.
impl Drop for Table {
    fn drop(self) {
        let Table {
            alloc: _,
            next: _,
            secrets: _,
        } = self;
    }
}

impl Model for Table {
    ghost use Rattle.sm_model.specs.declared.rows.Rows.{Rows};

    ghost Value = { Rows };

    ghost use Rattle.sm_table.specs.Ready.{IsTable};

    ghost view = { λ t. record { next = t.next; secrets = t.secrets.rows.list } };

    ghost invariant = { λ t. IsTable t.next t.secrets };
}

/// A change for which all memory is there. It holds that memory itself and nothing of a table, so that it can be made
/// of any table that has the rows that it was prepared for.
#[derive(Drop)]
pub struct Prepared {
    step: Step,
    before: Snapshot<Table>,
}

impl Model for Prepared {
    ghost use Rattle.sm_table.specs.Changes.{PreparedChange};
    ghost use Rattle.sm_table.specs.Ready.{change_of, IsReady};

    ghost Value = { PreparedChange };

    ghost view = { λ p. record { before = p.before.value; change = change_of p.step } };

    ghost invariant = { λ p. IsReady p.before.value p.step };
}

impl Table {
    /// No secrets. It takes no memory.
    pub fn new(alloc: Global) -> Table
        ensures { (result.next ≡ 0) × (result.secrets ≡ []) }
    {
        Table {
            alloc,
            next: 0,
            secrets: Indexed::new(alloc),
        }
    }

    /// The table of sound rows, with the room that a table has which made so many.
    pub fn of(alloc: Global, rows: &Rows) -> Result<Table, NoMemory>
        requires { Sound rows.now }
        ensures { IfOk result (λ table. table ≡ rows.now) }
    {
        let secrets = gathered(alloc, rows.secrets.as_slice(), room_left(rows.next))?;
        Ok(Table {
            alloc,
            next: rows.next,
            secrets,
        })
    }

    /// The serial of the next secret. It takes no memory.
    pub fn next(&self) -> u64
        ensures { result ≡ self.now.next }
    {
        self.next
    }

    /// A copy of the rows.
    pub fn rows(&self) -> Result<Rows, NoMemory>
        ensures { IfOk result (λ rows. rows ≡ self.now) }
    {
        Ok(Rows {
            next: self.next,
            secrets: List::new(self.secrets.rows.copies(self.alloc)?),
        })
    }

    /// The row that the SecretId names, of those whose deletion date is not reached: by its name, or by the whole
    /// ARN before an ARN without the hyphen and the six characters at its end. It takes no memory.
    pub fn find(&self, id: &SecretId, moment: Moment) -> Option<&SecretRow>
        ensures found { option_copied result ≡ found self.now moment id.now }
        ensures own { IfSome (option_copied result) (λ row. row_with self.now.secrets row.serial ≡ Some row) }
        ensures kept { RowsKept self.now → IfSome (option_copied result) (IsRowOf self.now moment) }
        ensures sound { Sound self.now → IfSome (option_copied result) RowSound }
    {
        self.find_named(id, moment)
    }

    /// The row with exactly this ARN, of those whose deletion date is not reached. It takes no memory.
    pub fn find_arn(&self, arn: &Arn, moment: Moment) -> Option<&SecretRow>
        ensures found { option_copied result ≡ found_arn self.now moment arn.now }
        ensures own { IfSome (option_copied result) (λ row. row_with self.now.secrets row.serial ≡ Some row) }
        ensures exact { IfSome (option_copied result) (λ row. row.arn ≡ arn.now) }
        ensures kept { RowsKept self.now → IfSome (option_copied result) (IsRowOf self.now moment) }
        ensures sound { Sound self.now → IfSome (option_copied result) RowSound }
    {
        self.find_with_arn(arn, moment)
    }

    /// The same as `find_arn`.
    fn find_with_arn(&self, arn: &Arn, moment: Moment) -> Option<&SecretRow>
        ensures found { option_copied result ≡ found_arn self.now moment arn.now }
        ensures own { IfSome (option_copied result) (λ row. row_with self.now.secrets row.serial ≡ Some row) }
    {
        search::row_with_arn(&self.secrets, moment, arn)
    }

    /// The same as `find`.
    fn find_named(&self, id: &SecretId, moment: Moment) -> Option<&SecretRow>
        ensures found { option_copied result ≡ found self.now moment id.now }
        ensures own { IfSome (option_copied result) (λ row. row_with self.now.secrets row.serial ≡ Some row) }
    {
        match id {
            SecretId::Name(name) => search::row_named(&self.secrets, moment, name),
            SecretId::Arn(arn) => search::row_by_arn(&self.secrets, moment, arn),
        }
    }

    /// The row that holds the name at the moment. It takes no memory.
    pub fn find_name(&self, name: &Name, moment: Moment) -> Option<&SecretRow>
        ensures { option_copied result ≡ row_named (swept self.now.secrets moment) name.now }
    {
        search::row_named(&self.secrets, moment, name)
    }

    /// How many rows are still there at the moment. It takes no memory.
    pub fn count_at(&self, moment: Moment) -> usize
        ensures { result ≡ length (swept self.now.secrets moment) }
    {
        self.secrets.count_at(moment)
    }

    /// The row with this serial. It takes no memory.
    pub fn row(&self, serial: u64) -> Option<&SecretRow>
        ensures row { option_copied result ≡ row_with self.now.secrets serial }
        ensures serial { IfSome (option_copied result) (λ row. row.serial ≡ serial) }
    {
        self.secrets.rows.get(serial)
    }

    /// The serials of the rows that have a job, in order of creation. It takes no memory.
    pub fn jobs(&self) -> &[u64]
        ensures jobs { result.now ≡ job_serials self.now.secrets }
    {
        self.secrets.signs.jobs.as_slice()
    }

    /// The serial of the first row that is due at the moment for a token that none of its versions has. It takes no
    /// memory.
    pub fn first_due(&self, moment: Moment) -> Option<u64>
        ensures due { result ≡ first_due self.now.secrets moment }
    {
        self.secrets.first_due(moment)
    }

    /// What `find` of the row with this serial gives: its version that the id, the label or both name, or without them
    /// the one with AWSCURRENT. It takes no memory.
    pub fn find_version(
        &self,
        serial: u64,
        id: Option<&Token>,
        label: Option<&Label>,
    ) -> Option<Found<'_>>
        ensures version { option_map looked_up result
            ≡ option_map (λ row. lookup row (option_copied id.entry) (option_copied label.entry))
            (row_with self.now.secrets serial) }
    {
        match self.secrets.rows.kept(serial) {
            Some(kept) => Some(kept.find_version(id, label)),
            None => None,
        }
    }

    /// Takes all the memory that the change needs. The rows stay.
    pub fn prepare(&mut self, change: Change) -> Result<Prepared, NoMemory>
        requires { CanMake self.old change }
        ensures prepared { IfOk result (λ p. p ≡ record { before = self.old; change = change }) }
        ensures rows { self.new ≡ self.old }
    {
        let step = self.step(change)?;
        let before = Snapshot::of(self);
        Ok(Prepared { step, before })
    }

    /// The change with the memory that it needs.
    fn step(&self, change: Change) -> Result<Step, NoMemory>
        requires { CanMake self.now change }
        ensures change { IfOk result (λ step. change_of step ≡ change) }
        ensures brought { IfOk result (HasBrought self.now) }
    {
        match change {
            Change::Add(row) => Ok(Step::Add(self.secrets.added(self.alloc, row)?)),
            Change::Replace(row) => Ok(Step::Replace(Kept::of(self.alloc, row)?)),
            Change::Drop(serial) => Ok(Step::Drop(serial)),
            Change::Nothing => Ok(Step::Nothing),
        }
    }

    /// Drops the rows whose deletion date is reached, and then makes the change. It takes no memory.
    pub fn commit(&mut self, prepared: Prepared, moment: Moment)
        requires unchanged { prepared.before ≡ self.old }
        requires stands { StandsAt self.old moment prepared.change }
        ensures rows { self.new ≡ changed (sweep self.old moment) prepared.change }
        ensures kept { RowsKept self.old → ChangeKept prepared.change → RowsKept self.new }
        ensures named { RowsKept self.old → NamesKept self.old → NamesKept self.new }
        ensures sound { Sound self.old → ChangeSound (sweep self.old moment) prepared.change → Sound self.new }
    {
        self.make(prepared, moment);
    }

    /// The same as `commit`.
    fn make(&mut self, prepared: Prepared, moment: Moment)
        requires unchanged { prepared.before ≡ self.old }
        requires stands { StandsAt self.old moment prepared.change }
        ensures rows { self.new ≡ changed (sweep self.old moment) prepared.change }
        ensures can { CanMake self.old prepared.change }
    {
        let Prepared { step, before: _ } = prepared;
        self.secrets.sweep(moment);
        match step {
            Step::Add(added) => {
                self.secrets.add(added);
                self.next += 1;
            }
            Step::Replace(kept) => self.secrets.replace(kept),
            Step::Drop(serial) => self.secrets.drop_row(serial),
            Step::Nothing => {}
        }
    }
}

impl RowList for Table {
    ghost rows = { λ table. table.secrets };

    fn count(&self) -> usize {
        self.secrets.rows.len()
    }

    fn at(&self, i: usize) -> Option<&SecretRow> {
        self.secrets.rows.at(i)
    }
}
