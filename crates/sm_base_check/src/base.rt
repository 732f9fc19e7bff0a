//! Whether a base is sound.
ghost use Rattle.std.specs.Prelude.{◌≡◌, ◌↔◌, IsTrue, IfOk, nat_le};
ghost use Rattle.sm_base.specs.declared.moment.TheConstants.{LAST_READING};
ghost use Rattle.sm_base_check.specs.Bases.{IsSound};
ghost use Rattle.sm_base_check.specs.Tests.{rows_fit, base_fits};

use crate::differ::all_differ;
use crate::rising::all_rise;
use crate::row::each_row;
use sm_base::limits::SECRETS_LIMIT;
use sm_base::moment::LAST_READING;
use sm_model::{Moment, NoMemory, Rows};
use sm_record::Base;
use std::alloc::Global;

/// Whether the rows are sound. They are counted before all else.
fn rows_fit(alloc: Global, rows: &Rows) -> Result<bool, NoMemory>
    ensures { IfOk result (λ fit. fit ≡ rows_fit rows.now) }
{
    if rows.secrets.len() > SECRETS_LIMIT as usize {
        return Ok(false);
    }
    if !all_rise(&rows.secrets, rows.next) {
        return Ok(false);
    }
    if !all_differ(alloc, &rows.secrets)? {
        return Ok(false);
    }
    each_row(alloc, rows.secrets.as_slice())
}

/// Whether the moment is one that a clock reads.
fn is_read(moment: Moment) -> bool
    ensures { result ≡ nat_le moment.0 LAST_READING }
{
    moment.0 <= LAST_READING
}

/// Whether entries may be counted from the base: its rows are as entries leave rows, and its moment is one that a clock
/// reads. It takes no memory for what it tells, only for the names, the keys, the labels and the ids that it compares.
pub fn is_sound(alloc: Global, base: &Base) -> Result<bool, NoMemory>
    ensures { IfOk result (λ sound. IsTrue sound ↔ IsSound base.now) }
{
    if !is_read(base.last) {
        return Ok(false);
    }
    Ok(rows_fit(alloc, &base.rows)?)
}
