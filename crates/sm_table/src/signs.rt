//! What is kept of all rows beside them: the serials of those with a job, the dates at which rotations come due, and
//! those of deletions.
ghost use Rattle.std.specs.Prelude.{◌≡◌, ◌+◌, ◌≤◌, ℕ, None, [], ◌∷◌, ◌++◌, length, IfOk, vec_len, vec_capacity};
ghost use Rattle.sm_table.specs.Sweep.{swept};
ghost use Rattle.sm_table.specs.Changes.{row_with, replaced, dropped};
ghost use Rattle.sm_table.specs.Kept.{IsRising};
ghost use Rattle.sm_table.specs.Dates.{first_serial};
ghost use Rattle.sm_table.specs.Signs.{IsSigns, SignsRoom};

use crate::dates::{self, DueDate};
use crate::jobs;
use crate::row_map::RowMap;
use sm_model::{Moment, NoMemory, SecretRow};
use sm_versions::due_date;
use std::alloc::Global;

/// The serials of the rows that have a job, the dates at which rotations come due, and those of deletions, each in
/// order.
#[derive(Drop)]
pub struct Signs {
    pub jobs: Vec<u64>,
    pub dates: Vec<DueDate>,
    pub deletions: Vec<DueDate>,
}

impl Signs {
    /// Those of no rows. It takes no memory.
    pub fn new(alloc: Global) -> Signs
        ensures { IsSigns result [] }
    {
        Signs {
            jobs: Vec::new(alloc),
            dates: Vec::new(alloc),
            deletions: Vec::new(alloc),
        }
    }

    /// Those of no rows, with room for those of so many.
    pub fn with_room(alloc: Global, count: usize) -> Result<Signs, NoMemory>
        ensures empty { IfOk result (λ signs. IsSigns signs []) }
        ensures room { IfOk result (λ signs. SignsRoom signs count) }
    {
        let jobs = Vec::with_capacity(alloc, count)?;
        let dates = Vec::with_capacity(alloc, count)?;
        let deletions = Vec::with_capacity(alloc, count)?;
        Ok(Signs {
            jobs,
            dates,
            deletions,
        })
    }

    /// A row is added behind the others.
    pub fn add(&mut self, rows: &RowMap, row: &SecretRow)
        requires signs { IsSigns self.old rows.now.list }
        requires new { row_with rows.now.list row.now.serial ≡ None }
        requires rising { IsRising (rows.now.list ++ row.now ∷ []) }
        requires room { SignsRoom self.old (length rows.now.list + 1) }
        ensures signs { IsSigns self.new (rows.now.list ++ row.now ∷ []) }
        ensures room { (count : ℕ) → SignsRoom self.old count → SignsRoom self.new count }
    {
        jobs::turn(&mut self.jobs, row.serial, false, row.job.is_some());
        dates::turn(&mut self.dates, row.serial, None, due_date(row));
        dates::turn(&mut self.deletions, row.serial, None, row.deletion);
    }

    /// A row comes in the place of the one with its serial.
    pub fn replace(&mut self, rows: &RowMap, row: &SecretRow)
        requires signs { IsSigns self.old rows.now.list }
        requires rising { IsRising rows.now.list }
        requires room { SignsRoom self.old (length rows.now.list) }
        ensures signs { IsSigns self.new (replaced rows.now.list row.now) }
        ensures room { (count : ℕ) → SignsRoom self.old count → SignsRoom self.new count }
    {
        match rows.get(row.serial) {
            Some(old) => {
                jobs::turn(
                    &mut self.jobs,
                    row.serial,
                    old.job.is_some(),
                    row.job.is_some(),
                );
                dates::turn(&mut self.dates, row.serial, due_date(old), due_date(row));
                dates::turn(&mut self.deletions, row.serial, old.deletion, row.deletion);
            }
            None => {}
        }
    }

    /// The row with the serial goes.
    pub fn remove(&mut self, rows: &RowMap, serial: u64)
        requires signs { IsSigns self.old rows.now.list }
        requires rising { IsRising rows.now.list }
        requires room { SignsRoom self.old (length rows.now.list) }
        ensures signs { IsSigns self.new (dropped rows.now.list serial) }
        ensures room { (count : ℕ) → SignsRoom self.old count → SignsRoom self.new count }
    {
        match rows.get(serial) {
            Some(old) => {
                jobs::turn(&mut self.jobs, serial, old.job.is_some(), false);
                dates::turn(&mut self.dates, serial, due_date(old), None);
                dates::turn(&mut self.deletions, serial, old.deletion, None);
            }
            None => {}
        }
    }

    /// The rows whose deletion date is reached go. No rotation of them comes due: they are scheduled for deletion.
    pub fn drop_gone(&mut self, rows: &RowMap, moment: Moment)
        requires signs { IsSigns self.old rows.now.list }
        requires rising { IsRising rows.now.list }
        ensures signs { IsSigns self.new (swept rows.now.list moment) }
        ensures room { (count : ℕ) → SignsRoom self.old count → SignsRoom self.new count }
    {
        jobs::sweep(&mut self.jobs, rows, moment);
        dates::drop_reached(&mut self.deletions, moment);
    }

    /// The serial of the row with the first deletion date, if there is one.
    pub fn first_deleted(&self) -> Option<u64>
        ensures { result ≡ first_serial self.now.deletions.items }
    {
        match self.deletions.first() {
            Some(due) => Some(due.serial),
            None => None,
        }
    }

    /// Moves into empty room.
    pub fn moved(&mut self, room: Signs) -> Signs
        requires no_jobs { room.jobs.items ≡ [] }
        requires no_dates { room.dates.items ≡ [] }
        requires no_deletions { room.deletions.items ≡ [] }
        requires jobs_room { vec_len self.old.jobs ≤ vec_capacity room.jobs }
        requires dates_room { vec_len self.old.dates ≤ vec_capacity room.dates }
        requires deletions_room { vec_len self.old.deletions ≤ vec_capacity room.deletions }
        ensures jobs { result.jobs.items ≡ self.old.jobs.items }
        ensures dates { result.dates.items ≡ self.old.dates.items }
        ensures deletions { result.deletions.items ≡ self.old.deletions.items }
        ensures room { (count : ℕ) → SignsRoom room count → SignsRoom result count }
    {
        let Signs {
            mut jobs,
            mut dates,
            mut deletions,
        } = room;
        let _ = jobs.append(&mut self.jobs);
        let _ = dates.append(&mut self.dates);
        let _ = deletions.append(&mut self.deletions);
        Signs {
            jobs,
            dates,
            deletions,
        }
    }
}
