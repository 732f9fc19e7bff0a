//! Judging DescribeSecret (AWS Secrets Manager API Reference, DescribeSecret).
ghost use Rattle.std.specs.Prelude.{◌≡◌, ◌++◌, IfOk, OnOk, None};
ghost use Rattle.sm_forms.specs.OfSecret.{of_secret_forms};
ghost use Rattle.sm_judge_common.specs.LabelsShown.{labels_shown};
ghost use Rattle.sm_judge_reads.specs.DescribeSecret.{with_labels, staged, keeps_rules, rules_shown, described, describe_on, describe_judgement};

use sm_base::{copy_three, copy_two};
use sm_judge_common::Judged;
use sm_judge_common::labels_shown::labels_shown;
use sm_judge_common::members::secret_id;
use sm_judge_common::regions::replicas_shown;
use sm_model::{
    Copied, Described, List, Moment, NoMemory, OfSecret, Reply, Rotation, RulesShown, SecretRow,
    Staged, Token, Why,
};
use sm_table::Table;
use std::alloc::Global;

/// Judges a DescribeSecret.
#[tactic(auto, using(sm_forms::proofs::OfSecretLemmas::named_id))]
pub fn judge_describe(
    alloc: Global,
    table: &Table,
    moment: Moment,
    describe: &OfSecret,
) -> Result<Judged, NoMemory>
    requires { of_secret_forms describe.now ≡ None }
    ensures { IfOk result (λ judged. judged ≡ describe_judgement table.now moment describe.now) }
{
    let id = secret_id(alloc, &describe.secret_id)?;
    match table.find(&id, moment) {
        Some(row) => describe_row(alloc, row),
        None => Ok(Judged::Refuse(Why::NoSecret)),
    }
}

/// Shows the secret of this row, also one that is scheduled for deletion.
fn describe_row(alloc: Global, row: &SecretRow) -> Result<Judged, NoMemory>
    ensures { IfOk result (λ judged. judged ≡ describe_on row.now) }
{
    let reply = described(alloc, row)?;
    Judged::reads(alloc, Reply::DescribeSecret(reply))
}

/// All that is shown of a secret.
pub fn described(alloc: Global, row: &SecretRow) -> Result<Described, NoMemory>
    ensures { IfOk result (λ shown. shown ≡ described row.now) }
{
    let (arn, name) = copy_two(alloc, row.arn.as_text(), row.name.as_text())?;
    let (description, kms_key_id, rotation_lambda_arn) = copy_three(
        alloc,
        &row.description,
        &row.kms,
        &row.rotation.lambda,
    )?;
    let rotation_rules = rules_shown(alloc, &row.rotation)?;
    let replication_status = replicas_shown(alloc, row.regions.as_slice())?;
    let tags = row.tags.copy(alloc)?;
    let version_ids_to_stages = staged(alloc, row)?;
    Ok(Described {
        arn,
        created_date: row.created,
        deleted_date: row.deletion,
        description,
        kms_key_id,
        last_changed_date: row.changed,
        last_rotated_date: row.rotation.last,
        name,
        next_rotation_date: row.rotation.next,
        replication_status,
        rotation_enabled: row.rotation.enabled,
        rotation_lambda_arn,
        rotation_rules,
        tags,
        version_ids_to_stages,
    })
}

/// Whether a rotation keeps days or a schedule.
fn keeps_rules(rotation: &Rotation) -> bool
    ensures { result ≡ keeps_rules rotation.now }
{
    rotation.days.is_some() || rotation.schedule.is_some()
}

/// The rotation rules, where some are kept.
fn rules_shown(alloc: Global, rotation: &Rotation) -> Result<Option<RulesShown>, NoMemory>
    ensures { IfOk result (λ shown. shown ≡ rules_shown rotation.now) }
{
    if keeps_rules(rotation) {
        Ok(Some(RulesShown {
            days: rotation.days,
            schedule: rotation.schedule.copy(alloc)?,
        }))
    } else {
        Ok(None)
    }
}

/// The versions with a label, in order of creation, each with its labels as they are shown.
fn staged(alloc: Global, row: &SecretRow) -> Result<List<Staged>, NoMemory>
    ensures { IfOk result (λ list. list ≡ staged row.now row.now.versions) }
{
    let mut list = List::empty(alloc);
    let versions = row.versions.items(alloc)?;
    for version in versions {
        push_staged(alloc, &mut list, row, &version.id)?;
    }
    Ok(list)
}

/// Adds a version with its labels, where it has one.
fn push_staged(
    alloc: Global,
    list: &mut List<Staged>,
    row: &SecretRow,
    id: &Token,
) -> Result<(), NoMemory>
    ensures { OnOk result (list.new ≡ list.old ++ with_labels id.now (labels_shown row.now id.now)) }
{
    let labels = labels_shown(alloc, row, id)?;
    match labels.as_slice() {
        [] => Ok(()),
        _ => {
            let id = id.copy(alloc)?;
            list.push(Staged { id, labels })?;
            Ok(())
        }
    }
}
