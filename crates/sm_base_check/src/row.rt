//! Whether a secret is sound.
ghost use Rattle.std.specs.Prelude.{◌≡◌, IfOk};
ghost use Rattle.sm_base_check.specs.Tests.{dates_fit, fields_fit, is_held, row_fits, each_row};

use crate::arn::is_arn_of;
use crate::fields::{date_fits, description_fits, is_date, policy_fits, rotation_fits};
use crate::job::may_be_job;
use crate::labels::{are_named, is_current_kept, labels_fit};
use crate::tags::tags_fit;
use crate::versions::versions_fit;
use sm_model::{NoMemory, SecretRow};
use sm_versions::regions::are_regions;
use std::alloc::Global;

/// Whether each text and each date of the secret fits, save those of its versions and its tags.
fn fields_fit(row: &SecretRow) -> bool
    ensures { result ≡ fields_fit row.now }
{
    is_arn_of(&row.arn, &row.name)
        && description_fits(&row.description)
        && description_fits(&row.kms)
        && policy_fits(&row.policy)
        && dates_fit(row)
}

/// Whether each date of the secret fits, save those of its versions.
fn dates_fit(row: &SecretRow) -> bool
    ensures { result ≡ dates_fit row.now }
{
    is_date(row.created)
        && is_date(row.changed)
        && date_fits(row.deletion)
        && rotation_fits(&row.rotation)
}

/// Whether the labels and the job of the secret are those that its versions allow.
fn is_held(row: &SecretRow) -> bool
    ensures { result ≡ is_held row.now }
{
    are_named(row) && is_current_kept(row) && may_be_job(row)
}

/// Whether the secret is sound. What is counted is counted before versions are looked for.
pub fn row_fits(alloc: Global, row: &SecretRow) -> Result<bool, NoMemory>
    ensures { IfOk result (λ fits. fits ≡ row_fits row.now) }
{
    if !tags_fit(alloc, &row.tags)? {
        return Ok(false);
    }
    if !labels_fit(alloc, &row.labels)? {
        return Ok(false);
    }
    if !versions_fit(alloc, row)? {
        return Ok(false);
    }
    Ok(are_regions(row.regions.as_slice()) && fields_fit(row) && is_held(row))
}

/// Whether each of the secrets is sound.
pub fn each_row(alloc: Global, rows: &[SecretRow]) -> Result<bool, NoMemory>
    ensures { IfOk result (λ fit. fit ≡ each_row rows.now) }
{
    for row in rows {
        if !row_fits(alloc, row)? {
            return Ok(false);
        }
    }
    Ok(true)
}
