//! Judging DeleteSecret (AWS Secrets Manager API Reference, DeleteSecret).
ghost use Rattle.std.specs.Prelude.{◌≡◌, ◌≤◌, IfOk, IfSome, IsTrue, None};
ghost use Rattle.sm_base.specs.declared.moment.TheConstants.{LAST_READING};
ghost use Rattle.sm_forms.specs.DeleteSecret.{is_window, delete_forms};
ghost use Rattle.sm_base.specs.declared.limits.TheConstants.{LONGEST_WINDOW};
ghost use Rattle.sm_judge_common.specs.Secrets.{unless_scheduled};
ghost use Rattle.sm_judge_deletion_and_tags.specs.DeleteSecret.{window_days, deletion_of, HasEnd, delete_call, deleted, deleted_absent, delete_absent, delete_at_once, delete_later, delete_on, delete_judged, delete_judgement};

use sm_base::copy_two;
use sm_base::limits::DEFAULT_WINDOW;
use sm_dates::window_end;
use sm_judge_common::Judged;
use sm_judge_common::members::secret_id;
use sm_judge_common::row_change::finish;
use sm_model::{
    Change, Copied, DeleteSecret, DeletedSecret, Moment, NoMemory, Reply, SecretId, SecretRow,
    Text, Why,
};
use sm_table::Table;
use sm_versions::When;
use std::alloc::Global;

/// How a secret is deleted.
#[derive(Clone, Copy)]
pub enum Deletion {
    /// At once, without recovery.
    Forced,
    /// After a recovery window of so many days.
    After(u32),
}

/// A DeleteSecret whose forms pass.
#[derive(Drop)]
pub struct DeleteCall {
    pub deletion: Deletion,
    pub id: SecretId,
    /// The SecretId as it was given.
    pub given: Text,
}

/// Judges a DeleteSecret.
#[tactic(auto, using(crate::proofs::DeleteSecretLemmas::call_has_end))]
pub fn judge_delete(
    alloc: Global,
    table: &Table,
    when: When,
    delete: &DeleteSecret,
) -> Result<Judged, NoMemory>
    requires forms { delete_forms delete.now ≡ None }
    requires moment { when.moment.0 ≤ LAST_READING }
    ensures { IfOk result (λ judged. judged ≡ delete_judgement table.now when delete.now) }
{
    let call = delete_call(alloc, delete)?;
    judge_call(alloc, table, when, call)
}

// ---- the members

/// The members of a DeleteSecret.
#[tactic(auto, using(sm_forms::proofs::DeleteSecretLemmas::delete_id, sm_forms::proofs::DeleteSecretLemmas::delete_window))]
fn delete_call(alloc: Global, delete: &DeleteSecret) -> Result<DeleteCall, NoMemory>
    requires { delete_forms delete.now ≡ None }
    ensures { IfOk result (λ call. call ≡ delete_call delete.now) }
{
    Ok(DeleteCall {
        deletion: deletion_of(delete),
        id: secret_id(alloc, &delete.secret_id)?,
        given: delete.secret_id.copy(alloc)?,
    })
}

/// The days of the window.
fn window_days(window: Option<i64>) -> u32
    requires { IfSome window (λ days. IsTrue (is_window days)) }
    ensures { result ≡ window_days window }
{
    match window {
        Some(days) => days as u32,
        None => DEFAULT_WINDOW,
    }
}

/// How the secret is to be deleted.
fn deletion_of(delete: &DeleteSecret) -> Deletion
    requires { IfSome delete.now.recovery_window_in_days (λ days. IsTrue (is_window days)) }
    ensures { result ≡ deletion_of delete.now }
{
    if delete.force_delete_without_recovery {
        Deletion::Forced
    } else {
        Deletion::After(window_days(delete.recovery_window_in_days))
    }
}

// ---- the tests

/// Judges a DeleteSecret by the secret that it names.
fn judge_call(
    alloc: Global,
    table: &Table,
    when: When,
    call: DeleteCall,
) -> Result<Judged, NoMemory>
    requires moment { when.moment.0 ≤ LAST_READING }
    requires end { HasEnd call.deletion }
    ensures { IfOk result (λ judged. judged ≡ delete_judged table.now when call) }
{
    match table.find(&call.id, when.moment) {
        Some(row) => delete_on(alloc, row, when, call.deletion),
        None => delete_absent(alloc, when.moment, call.deletion, call.given),
    }
}

/// Deletes no secret: a deletion that is forced is accepted all the same.
fn delete_absent(
    alloc: Global,
    moment: Moment,
    deletion: Deletion,
    given: Text,
) -> Result<Judged, NoMemory>
    ensures { IfOk result (λ judged. judged ≡ delete_absent moment deletion given) }
{
    match deletion {
        Deletion::Forced => Judged::reads(
            alloc,
            Reply::DeleteSecret(deleted_absent(given, moment)),
        ),
        Deletion::After(_) => Ok(Judged::Refuse(Why::NoSecret)),
    }
}

/// Deletes the secret of this row. One that is scheduled already can only be forced.
fn delete_on(
    alloc: Global,
    row: &SecretRow,
    when: When,
    deletion: Deletion,
) -> Result<Judged, NoMemory>
    requires moment { when.moment.0 ≤ LAST_READING }
    requires end { HasEnd deletion }
    ensures { IfOk result (λ judged. judged ≡ delete_on row.now when deletion) }
{
    match deletion {
        Deletion::Forced => delete_at_once(alloc, row, when.moment),
        Deletion::After(days) => delete_unless_scheduled(alloc, row, when, days),
    }
}

/// Drops the row.
fn delete_at_once(alloc: Global, row: &SecretRow, moment: Moment) -> Result<Judged, NoMemory>
    ensures { IfOk result (λ judged. judged ≡ delete_at_once row.now moment) }
{
    let reply = deleted(alloc, row, moment)?;
    Judged::changes(alloc, Reply::DeleteSecret(reply), Change::Drop(row.serial))
}

/// Schedules the secret of this row for deletion, unless it is scheduled already.
fn delete_unless_scheduled(
    alloc: Global,
    row: &SecretRow,
    when: When,
    days: u32,
) -> Result<Judged, NoMemory>
    requires moment { when.moment.0 ≤ LAST_READING }
    requires days { days ≤ LONGEST_WINDOW }
    ensures { IfOk result (λ judged. judged ≡ unless_scheduled row.now.deletion (delete_later row.now when days)) }
{
    match row.deletion {
        Some(date) => Ok(Judged::Refuse(Why::Scheduled(date))),
        None => delete_later(alloc, row, when, days),
    }
}

/// Schedules the secret of this row for deletion.
fn delete_later(alloc: Global, row: &SecretRow, when: When, days: u32) -> Result<Judged, NoMemory>
    requires moment { when.moment.0 ≤ LAST_READING }
    requires days { days ≤ LONGEST_WINDOW }
    ensures { IfOk result (λ judged. judged ≡ delete_later row.now when days) }
{
    let date = window_end(when.moment, days);
    let reply = deleted(alloc, row, date)?;
    let mut after = row.copy(alloc)?;
    after.deletion = Some(date);
    finish(&mut after, when);
    Judged::changes(alloc, Reply::DeleteSecret(reply), Change::Replace(after))
}

// ---- the replies

/// The reply that names the secret of this row and the date.
fn deleted(alloc: Global, row: &SecretRow, date: Moment) -> Result<DeletedSecret, NoMemory>
    ensures { IfOk result (λ reply. reply ≡ deleted row.now date) }
{
    let (arn, name) = copy_two(alloc, row.arn.as_text(), row.name.as_text())?;
    Ok(DeletedSecret {
        arn: Some(arn),
        deletion_date: date,
        name,
    })
}

/// The reply of a deletion of no secret.
fn deleted_absent(given: Text, moment: Moment) -> DeletedSecret
    ensures { result ≡ deleted_absent given moment }
{
    DeletedSecret {
        arn: None,
        deletion_date: moment,
        name: given,
    }
}
