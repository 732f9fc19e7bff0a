//! Due rotations of all secrets (AWS Secrets Manager User Guide, "Rotation schedules").
ghost use Rattle.std.specs.Prelude.{◌≡◌, ◌≤◌, IfSome, option_copied};
ghost use Rattle.sm_base.specs.declared.moment.TheConstants.{LAST_READING};
ghost use Rattle.sm_table.specs.Changes.{row_with};
ghost use Rattle.sm_claims.specs.Due.{due_of, first_due, has_due};

use sm_model::{Moment, RowList, SecretRow, Token};
use sm_rotation::is_due;
use sm_table::Table;
use sm_versions::When;

/// Whether some secret is due at the moment for a token that none of its versions has. It takes no memory.
#[tactic(auto, using(crate::proofs::DueLemmas::due_is_some))]
pub fn has_due(table: &Table, moment: Moment) -> bool
    ensures { result ≡ has_due table.now.secrets moment }
{
    table.first_due(moment).is_some()
}

/// The first secret, in order of creation, whose rotation is due at the moment and may begin with the token. It takes
/// no memory. All secrets are looked at only where the first one that is due has a version with the token.
#[tactic(auto, using(crate::proofs::DueLemmas::first_is_lowest, crate::proofs::DueLemmas::none_is_due))]
pub fn first_due<'a>(table: &'a Table, moment: Moment, token: &Token) -> Option<&'a SecretRow>
    requires { moment.0 ≤ LAST_READING }
    ensures { option_copied result ≡ first_due table.now.secrets moment token.now }
{
    match table.first_due(moment) {
        Some(serial) => match due_with(table, moment, token, serial) {
            Some(row) => Some(row),
            None => first_due_of_all(table, moment, token),
        },
        None => None,
    }
}

/// The secret with the serial, if its rotation is due and may begin with the token.
fn due_with<'a>(
    table: &'a Table,
    moment: Moment,
    token: &Token,
    serial: u64,
) -> Option<&'a SecretRow>
    requires { moment.0 ≤ LAST_READING }
    ensures { option_copied result ≡ due_of moment token.now (row_with table.now.secrets serial) }
{
    match table.row(serial) {
        Some(row) => {
            if is_due(row, token, When::pruning(moment)) {
                Some(row)
            } else {
                None
            }
        }
        None => None,
    }
}

/// The same as `first_due`, by a look at each secret.
#[tactic(auto, using(crate::proofs::DueLemmas::due_here, crate::proofs::DueLemmas::due_next, crate::proofs::DueLemmas::due_end))]
fn first_due_of_all<'a>(table: &'a Table, moment: Moment, token: &Token) -> Option<&'a SecretRow>
    requires { moment.0 ≤ LAST_READING }
    ensures { option_copied result ≡ first_due table.now.secrets moment token.now }
{
    for i in 0..table.count() {
        match table.at(i) {
            Some(row) => {
                if is_due(row, token, When::pruning(moment)) {
                    return Some(row);
                }
            }
            None => return None,
        }
    }
    None
}
