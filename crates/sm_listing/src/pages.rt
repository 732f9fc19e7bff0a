//! Pages of secrets, and of the versions of a secret.
ghost use Rattle.std.specs.Prelude.{◌≡◌, ◌<◌, ◌≤◌, ◌-◌, if◌then◌else◌, IfOk, IfSome, Some, length, slice_get, option_copied};
ghost use Rattle.sm_base.specs.Outcomes.{OrMemory};
ghost use Rattle.sm_base.specs.Texts.{same_text};
ghost use Rattle.sm_model.specs.Labels.{is_labelled};
ghost use Rattle.sm_listing.specs.Pages.{ordered, is_behind, is_there, comes, row_serials, version_comes, version_serials, start_of, secrets_page, versions_page, told};
ghost use Rattle.sm_listing.specs.Walks.{IsPage};
ghost use Rattle.sm_listing.specs.Beginnings.{IsSoughtOf};

use crate::asks::{Listed, PageAsk, PageRefused};
use crate::beginnings::{Sought, sought_of};
use crate::filters::{bad_filter, pass};
use crate::shown::{Shown, page_shown};
use crate::tokens::{SECRETS, VERSIONS, serial_of};
use sm_base::{Moment, NoMemory, Text, Token};
use sm_model::{Pair, RowList, SecretRow, VersionRow};
use std::alloc::Global;

/// Whether a serial comes behind the start of a page.
fn is_behind(descending: bool, start: Option<u64>, serial: u64) -> bool
    ensures { result ≡ is_behind descending start serial }
{
    match start {
        None => true,
        Some(start) => {
            if descending {
                serial < start
            } else {
                start < serial
            }
        }
    }
}

/// Whether a secret with such a deletion date is there.
fn is_there(planned: bool, moment: Moment, deletion: Option<Moment>) -> bool
    ensures { result ≡ is_there planned moment deletion }
{
    match deletion {
        None => true,
        Some(date) => planned && moment.0 < date.0,
    }
}

/// Whether a row is listed, behind the start.
fn comes(
    moment: Moment,
    ask: &PageAsk,
    sought: &Option<Sought>,
    start: Option<u64>,
    row: &SecretRow,
) -> bool
    requires { IfSome sought.now (IsSoughtOf ask.now.filters) }
    ensures { result ≡ comes moment ask.now start row.now }
{
    is_behind(ask.descending, start, row.serial)
        && is_there(ask.planned, moment, row.deletion)
        && pass(row, ask.filters.as_slice(), sought)
}

/// The place at which a walk is after so many steps.
fn place_of(count: usize, descending: bool, step: usize) -> usize
    requires { step < count }
    ensures { result ≡ (if descending then count - 1 - step else step) }
{
    if descending { count - 1 - step } else { step }
}

/// The row at which a walk is after so many steps.
#[tactic(auto, using(crate::proofs::WalkLemmas::ordered_at, crate::proofs::WalkLemmas::place_within))]
fn row_at<L: RowList>(rows: &L, descending: bool, step: usize) -> &SecretRow
    requires { step < length (L.rows rows.now) }
    ensures { slice_get (ordered descending (L.rows rows.now)) step ≡ Some result.now }
{
    match rows.at(place_of(rows.count(), descending, step)) {
        Some(row) => row,
        None => unreachable!(),
    }
}

/// The rows of a page behind a start.
#[tactic(auto, using(crate::proofs::WalkLemmas::listed_more, crate::proofs::WalkLemmas::unlisted_more, crate::proofs::WalkLemmas::page_full, crate::proofs::WalkLemmas::page_ends))]
fn shown_rows<L: RowList>(
    alloc: Global,
    rows: &L,
    moment: Moment,
    ask: &PageAsk,
    sought: &Option<Sought>,
    start: Option<u64>,
) -> Result<Shown, NoMemory>
    requires { IfSome sought.now (IsSoughtOf ask.now.filters) }
    ensures { IfOk result
        (λ shown. IsPage ask.now.max (row_serials (L.rows rows.now) moment ask.now start) shown.serials.items
        shown.follows) }
{
    let mut serials = Vec::new(alloc);
    for step in 0..rows.count() {
        let row = row_at(rows, ask.descending, step);
        if !comes(moment, ask, sought, start, row) {
            continue;
        }
        if serials.len() >= ask.max as usize {
            return Ok(Shown {
                serials,
                follows: true,
            });
        }
        serials.push(row.serial)?;
    }
    Ok(Shown {
        serials,
        follows: false,
    })
}

/// Whether a label is on a version.
fn has_label(labels: &[Pair], version: &VersionRow) -> bool
    ensures { result ≡ is_labelled labels.now version.now.id }
{
    labels.iter().any(|pair| is_same(&pair.id, &version.id))
}

/// Whether both are the same id.
#[tactic(auto, unfolding(sm_base::specs::Texts::same_text))]
fn is_same(id: &Token, other: &Token) -> bool
    ensures { result ≡ same_text id.now other.now }
{
    id.equals(other)
}

/// Whether a version is listed, behind the start.
fn version_comes(
    labels: &[Pair],
    deprecated: bool,
    start: Option<u64>,
    version: &VersionRow,
) -> bool
    ensures { result ≡ version_comes labels.now deprecated start version.now }
{
    (deprecated || has_label(labels, version)) && is_behind(false, start, version.serial)
}

/// The versions of a page behind a start.
#[tactic(auto, using(crate::proofs::WalkLemmas::listed_more, crate::proofs::WalkLemmas::unlisted_more, crate::proofs::WalkLemmas::page_full, crate::proofs::WalkLemmas::page_ends))]
fn shown_versions(
    alloc: Global,
    row: &SecretRow,
    deprecated: bool,
    max: u32,
    start: Option<u64>,
) -> Result<Shown, NoMemory>
    ensures { IfOk result
        (λ shown. IsPage max (version_serials row.now deprecated start) shown.serials.items shown.follows) }
{
    let mut serials = Vec::new(alloc);
    let versions = row.versions.items(alloc)?;
    for version in versions {
        if !version_comes(row.labels.as_slice(), deprecated, start, version) {
            continue;
        }
        if serials.len() >= max as usize {
            return Ok(Shown {
                serials,
                follows: true,
            });
        }
        serials.push(version.serial)?;
    }
    Ok(Shown {
        serials,
        follows: false,
    })
}

/// Where a page begins that has a token, or has none.
fn start_of(letter: char, token: Option<&Text>) -> Result<Option<u64>, PageRefused>
    requires { letter < 128 }
    ensures { result ≡ start_of letter (option_copied token.entry) }
{
    match token {
        Some(token) => match serial_of(letter, token) {
            Some(serial) => Ok(Some(serial)),
            None => Err(PageRefused::BadToken),
        },
        None => Ok(None),
    }
}

/// A page of secrets.
#[tactic(auto, using(crate::proofs::WalkLemmas::page_is))]
pub fn page<L: RowList>(
    alloc: Global,
    rows: &L,
    moment: Moment,
    ask: &PageAsk,
) -> Result<Listed, PageRefused>
    requires { (1 ≤ ask.now.max) × (ask.now.max ≤ 100) }
    ensures { OrMemory (told result) (secrets_page (L.rows rows.now) moment ask.now) }
{
    if let Some(number) = bad_filter(ask.filters.as_slice()) {
        return Err(PageRefused::BadFilter(number));
    }
    let start = start_of(SECRETS, ask.token.as_ref())?;
    let sought = sought_of(alloc, ask.filters.as_slice())?;
    let shown = shown_rows(alloc, rows, moment, ask, &sought, start)?;
    Ok(page_shown(alloc, SECRETS, shown)?)
}

/// A page of the versions of a secret.
#[tactic(auto, using(crate::proofs::WalkLemmas::page_is))]
pub fn version_page(
    alloc: Global,
    row: &SecretRow,
    deprecated: bool,
    max: u32,
    token: Option<&Text>,
) -> Result<Listed, PageRefused>
    requires { (1 ≤ max) × (max ≤ 100) }
    ensures { OrMemory (told result) (versions_page row.now deprecated max (option_copied token.entry)) }
{
    let start = start_of(VERSIONS, token)?;
    let shown = shown_versions(alloc, row, deprecated, max, start)?;
    Ok(page_shown(alloc, VERSIONS, shown)?)
}
