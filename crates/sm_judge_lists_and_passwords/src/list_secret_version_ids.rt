//! Judging ListSecretVersionIds (AWS Secrets Manager API Reference, ListSecretVersionIds).
ghost use Rattle.std.specs.Prelude.{◌≡◌, ◌≤◌, IfOk, IsTrue, Some, None, map};
ghost use Rattle.sm_forms.specs.ListSecretVersionIds.{list_versions_forms};
ghost use Rattle.sm_forms.specs.Paging.{is_page_token};
ghost use Rattle.sm_judge_common.specs.LabelsShown.{labels_shown};
ghost use Rattle.sm_listing.specs.declared.tokens.TheConstants.{VERSIONS};
ghost use Rattle.sm_judge_lists_and_passwords.specs.ListSecretVersionIds.{versions_call, stages_shown, version_item, version_serial, versions_listed, version_page, versions_on, versions_judgement, IsVersionsCall};
ghost use Rattle.sm_judge_lists_and_passwords.specs.Pages.{picked};
ghost use Rattle.sm_model.specs.Bounds.{fits};

use crate::pages::{is_next, page_size};
use sm_base::limits::PAGE_LIMIT;
use sm_judge_common::Judged;
use sm_judge_common::labels_shown::labels_shown;
use sm_judge_common::members::secret_id;
use sm_listing::{Listed, PageRefused};
use sm_model::{
    Copied, Label, List, ListSecretVersionIds, Moment, NoMemory, Reply, SecretId, SecretRow, Text,
    VersionItem, VersionPage, VersionRow, Why,
};
use sm_table::Table;
use std::alloc::Global;

/// A ListSecretVersionIds whose forms pass.
#[derive(Drop)]
pub struct VersionsCall {
    /// Whether versions without a label are listed too.
    pub deprecated: bool,
    pub id: SecretId,
    /// The most versions on the page.
    pub max: u32,
    pub token: Option<Text>,
}

/// Judges a ListSecretVersionIds.
pub fn judge_versions(
    alloc: Global,
    table: &Table,
    moment: Moment,
    list: &ListSecretVersionIds,
) -> Result<Judged, NoMemory>
    requires { list_versions_forms list.now ≡ None }
    ensures { IfOk result (λ judged. judged ≡ versions_judgement table.now moment list.now) }
{
    let call = versions_call(alloc, list)?;
    match table.find(&call.id, moment) {
        Some(row) => show_versions(alloc, row, &call),
        None => Ok(Judged::Refuse(Why::NoSecret)),
    }
}

/// The members of a ListSecretVersionIds.
#[tactic(auto, using(sm_forms::proofs::ListSecretVersionIdsLemmas::versions_max, sm_forms::proofs::ListSecretVersionIdsLemmas::versions_next, sm_forms::proofs::ListSecretVersionIdsLemmas::versions_id, crate::proofs::PageLemmas::versions_asked))]
fn versions_call(alloc: Global, list: &ListSecretVersionIds) -> Result<VersionsCall, NoMemory>
    requires { list_versions_forms list.now ≡ None }
    ensures call { IfOk result (λ call. call ≡ versions_call list.now) }
    ensures asks { IfOk result IsVersionsCall }
{
    Ok(VersionsCall {
        deprecated: list.include_deprecated,
        id: secret_id(alloc, &list.secret_id)?,
        max: page_size(PAGE_LIMIT, list.max_results),
        token: list.next_token.copy(alloc)?,
    })
}

/// Shows the versions of this row, also of one that is scheduled for deletion.
fn show_versions(alloc: Global, row: &SecretRow, call: &VersionsCall) -> Result<Judged, NoMemory>
    requires { IsVersionsCall call.now }
    ensures { IfOk result (λ judged. judged ≡ versions_on row.now call.now) }
{
    let reply = version_page(alloc, row, call)?;
    Judged::reads(alloc, Reply::ListSecretVersionIds(reply))
}

/// The page's versions, and the token of the next page.
fn version_page(
    alloc: Global,
    row: &SecretRow,
    call: &VersionsCall,
) -> Result<VersionPage, NoMemory>
    requires { IsVersionsCall call.now }
    ensures { IfOk result (λ page. page ≡ version_page row.now call.now) }
{
    let Listed { serials, next } = versions_listed(alloc, row, call)?;
    let versions = version_items(alloc, row, serials.as_slice())?;
    Ok(VersionPage {
        arn: row.arn.as_text().copy(alloc)?,
        name: row.name.as_text().copy(alloc)?,
        next_token: next,
        versions,
    })
}

/// The serials of the page, and the token of the next.
#[tactic(auto, using(crate::proofs::PageLemmas::versions_are_listed))]
fn versions_listed(alloc: Global, row: &SecretRow, call: &VersionsCall) -> Result<Listed, NoMemory>
    requires { IsVersionsCall call.now }
    ensures { IfOk result (λ page. page ≡ versions_listed row.now call.now) }
{
    match sm_listing::version_page(alloc, row, call.deprecated, call.max, call.token.as_ref()) {
        Ok(listed) => Ok(listed),
        Err(PageRefused::Memory) => Err(NoMemory),
        Err(PageRefused::BadFilter(_)) => unreachable!(),
        Err(PageRefused::BadToken) => unreachable!(),
    }
}

/// The versions with these serials, which come in order of creation.
fn version_items(
    alloc: Global,
    row: &SecretRow,
    serials: &[u64],
) -> Result<List<VersionItem>, NoMemory>
    ensures { IfOk result (λ list. list
        ≡ map (version_item row.now) (picked version_serial serials.now row.now.versions)) }
{
    let mut list = List::empty(alloc);
    let versions = row.versions.items(alloc)?;
    for version in versions {
        if list.len() >= serials.len() {
            return Ok(list);
        }
        if is_next(serials, list.len(), version.serial) {
            list.push(version_item(alloc, row, version)?)?;
        }
    }
    Ok(list)
}

/// A version as it is shown.
fn version_item(
    alloc: Global,
    row: &SecretRow,
    version: &VersionRow,
) -> Result<VersionItem, NoMemory>
    ensures { IfOk result (λ item. item ≡ version_item row.now version.now) }
{
    let labels = labels_shown(alloc, row, &version.id)?;
    Ok(VersionItem {
        created_date: version.made,
        version_id: version.id.copy(alloc)?,
        version_stages: stages_shown(labels),
    })
}

/// The labels of a version, where it has some.
fn stages_shown(labels: List<Label>) -> Option<List<Label>>
    ensures { result ≡ stages_shown labels }
{
    if labels.is_empty() {
        None
    } else {
        Some(labels)
    }
}
