//! Due rotations (AWS Secrets Manager User Guide, "Rotation schedules").
ghost use Rattle.std.specs.Prelude.{◌≡◌, option_copied};
ghost use Rattle.sm_model.specs.Due.{is_reached, is_free_or_held_by, is_due_when};
ghost use Rattle.sm_versions.specs.Due.{comes_due, due_date};

use crate::labels::{current, holder, is_same_id, pending};
use crate::pruning::is_full;
use crate::when::When;
use sm_model::{Moment, SecretRow, Token};

/// Whether the date is there, and the moment has reached it.
pub fn is_reached(date: Option<Moment>, moment: Moment) -> bool
    ensures { result ≡ is_reached date moment }
{
    match date {
        Some(date) => date.0 <= moment.0,
        None => false,
    }
}

/// Whether nobody holds the first label, or the holder of the second does.
fn is_free_or_held_by(pending: Option<&Token>, current: Option<&Token>) -> bool
    ensures { result ≡ is_free_or_held_by (option_copied pending.entry) (option_copied current.entry) }
{
    match (pending, current) {
        (None, _) => true,
        (Some(_), None) => false,
        (Some(pending), Some(current)) => is_same_id(pending, current),
    }
}

/// Whether a rotation of the secret comes due at its next date, where a version may be added then.
fn comes_due(row: &SecretRow) -> bool
    ensures { result ≡ comes_due row.now }
{
    let pairs = row.labels.as_slice();
    let current_holder = holder(pairs, &current());
    row.rotation.enabled
        && row.deletion.is_none()
        && current_holder.is_some()
        && is_free_or_held_by(holder(pairs, &pending()), current_holder)
}

/// The date at which a rotation of the secret comes due. It takes no memory.
pub fn due_date(row: &SecretRow) -> Option<Moment>
    ensures { result ≡ due_date row.now }
{
    if comes_due(row) {
        row.rotation.next
    } else {
        None
    }
}

/// Whether a rotation of the secret is due then, for a token that none of its versions has. It takes no memory.
#[tactic(auto, using(crate::proofs::DueLaws::due_by_date))]
pub fn is_due_for_some(row: &SecretRow, when: When) -> bool
    ensures { result ≡ is_due_when row.now when }
{
    is_reached(due_date(row), when.moment) && !is_full(row, when)
}
