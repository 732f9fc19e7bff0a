//! The secret that a request names, where it may not be scheduled for deletion
//! (AWS Secrets Manager API Reference, DeleteSecret).
ghost use Rattle.std.specs.Prelude.{◌≡◌, IfErr, IfOk, Some};
ghost use Rattle.sm_judge_common.specs.Secrets.{IsStanding, standing_refusal};
ghost use Rattle.sm_table.specs.Changes.{row_with};
ghost use Rattle.sm_table.specs.Found.{found};

use sm_model::{Moment, SecretId, SecretRow, Why};
use sm_table::Table;

/// The row of the secret that the SecretId names, which is there and not scheduled for deletion, or why a request on it
/// is refused.
pub fn standing<'a>(table: &'a Table, id: &SecretId, moment: Moment) -> Result<&'a SecretRow, Why>
    ensures standing { IfOk result (λ row. IsStanding (found table.now moment id.now) row.now) }
    ensures own { IfOk result (λ row. row_with table.now.secrets row.now.serial ≡ Some row.now) }
    ensures refused { IfErr result (λ why. standing_refusal (found table.now moment id.now) ≡ Some why) }
{
    match table.find(id, moment) {
        Some(row) => unscheduled(row),
        None => Err(Why::NoSecret),
    }
}

/// The row, unless its secret is scheduled for deletion.
fn unscheduled(row: &SecretRow) -> Result<&SecretRow, Why>
    ensures standing { IfOk result (λ same. IsStanding (Some row.now) same.now) }
    ensures refused { IfErr result (λ why. standing_refusal (Some row.now) ≡ Some why) }
{
    match row.deletion {
        Some(date) => Err(Why::Scheduled(date)),
        None => Ok(row),
    }
}
