//! A version by its id, by a label, or by both (AWS Secrets Manager API Reference, GetSecretValue).
ghost use Rattle.std.specs.Prelude.{◌≡◌, option_copied};
ghost use Rattle.sm_model.specs.Labels.{aws_current};
ghost use Rattle.sm_versions.specs.Find.{looked_up, version_labelled, lookup_of, lookup_of_both, lookup};

use crate::labels::{current, holder, is_same_id};
use crate::versions::version_of;
use sm_model::{Label, SecretRow, Token, VersionRow};

/// What a look-up found.
#[derive(Drop)]
pub enum Found<'a> {
    Version(&'a VersionRow),
    None,
    /// The id and the label name two versions.
    Differ,
}

/// The version that has the label.
fn version_labelled<'a>(row: &'a SecretRow, label: &Label) -> Option<&'a VersionRow>
    ensures { option_copied result ≡ version_labelled row.now label.now }
{
    match holder(row.labels.as_slice(), label) {
        Some(id) => version_of(&row.versions, id),
        None => None,
    }
}

/// What one name found.
pub fn lookup_of(version: Option<&VersionRow>) -> Found<'_>
    ensures { looked_up result ≡ lookup_of (option_copied version.entry) }
{
    match version {
        Some(version) => Found::Version(version),
        None => Found::None,
    }
}

/// What two names found.
pub fn lookup_of_both<'a>(
    version: Option<&'a VersionRow>,
    other: Option<&'a VersionRow>,
) -> Found<'a>
    ensures { looked_up result ≡ lookup_of_both (option_copied version.entry) (option_copied other.entry) }
{
    match version {
        Some(version) => match other {
            Some(other) => {
                if is_same_id(&version.id, &other.id) {
                    Found::Version(version)
                } else {
                    Found::Differ
                }
            }
            None => Found::None,
        },
        None => Found::None,
    }
}

/// The version with AWSCURRENT.
fn the_current(row: &SecretRow) -> Option<&VersionRow>
    ensures { option_copied result ≡ version_labelled row.now aws_current }
{
    version_labelled(row, &current())
}

/// The version that the id, the label or both name, or without them the one with AWSCURRENT. It takes no memory.
pub fn find<'a>(row: &'a SecretRow, id: Option<&Token>, label: Option<&Label>) -> Found<'a>
    ensures { looked_up result ≡ lookup row.now (option_copied id.entry) (option_copied label.entry) }
{
    match id {
        Some(id) => {
            let version = version_of(&row.versions, id);
            match label {
                Some(label) => lookup_of_both(version, version_labelled(row, label)),
                None => lookup_of(version),
            }
        }
        None => match label {
            Some(label) => lookup_of(version_labelled(row, label)),
            None => lookup_of(the_current(row)),
        },
    }
}
