//! Pages of secrets and of versions as they are shown.
ghost use Rattle.std.specs.Prelude.{◌≡◌, ◌≤◌, ◌<◌, IfOk, IsTrue, Some, ◌↔◌, length, map, slice_get};
ghost use Rattle.sm_forms.specs.Paging.{is_count};
ghost use Rattle.sm_listing.specs.Pages.{ordered};
ghost use Rattle.sm_judge_lists_and_passwords.specs.Pages.{page_size, filters_given, IsPageAsk, listed, picked, row_serial};
ghost use Rattle.sm_model.specs.Bounds.{fits};

use sm_listing::{Listed, PageAsk, PageRefused, page};
use sm_model::{Copied, Filter, List, Moment, NoMemory, RowList, SecretRow};
use sm_table::Table;
use std::alloc::Global;

/// How many items a page has at most: as many as are asked for, or as may be asked for.
pub(crate) fn page_size(most: u32, max: Option<i64>) -> u32
    requires { IsTrue (fits (is_count most) max) }
    ensures { result ≡ page_size most max }
{
    match max {
        Some(max) => max as u32,
        None => most,
    }
}

/// The filters that are given, if some are.
pub(crate) fn filters_given(
    alloc: Global,
    filters: &Option<List<Filter>>,
) -> Result<List<Filter>, NoMemory>
    ensures { IfOk result (λ list. list ≡ filters_given filters.now) }
{
    match filters {
        Some(filters) => filters.copy(alloc),
        None => Ok(List::empty(alloc)),
    }
}

/// The serials of a page of secrets, and the token of the next.
#[tactic(auto, using(crate::proofs::PageLemmas::page_is_listed))]
pub(crate) fn listed(
    alloc: Global,
    table: &Table,
    moment: Moment,
    ask: &PageAsk,
) -> Result<Listed, NoMemory>
    requires { IsPageAsk ask.now }
    ensures { IfOk result (λ page. page ≡ listed table.now moment ask.now) }
{
    match page(alloc, table, moment, ask) {
        Ok(listed) => Ok(listed),
        Err(PageRefused::Memory) => Err(NoMemory),
        Err(PageRefused::BadFilter(_)) => unreachable!(),
        Err(PageRefused::BadToken) => unreachable!(),
    }
}

/// The row at which a walk over the table is after so many steps.
#[tactic(auto, using(sm_listing::proofs::WalkLemmas::ordered_at, sm_listing::proofs::WalkLemmas::place_within))]
fn row_at(table: &Table, descending: bool, step: usize) -> &SecretRow
    requires { step < length table.now.secrets }
    ensures { slice_get (ordered descending table.now.secrets) step ≡ Some result.now }
{
    let place = if descending {
        table.count() - 1 - step
    } else {
        step
    };
    match table.at(place) {
        Some(row) => row,
        None => unreachable!(),
    }
}

/// What a page shows of each of its secrets.
pub(crate) trait Shown: Drop {
    ghost use Rattle.sm_model.specs.declared.rows.SecretRow.{SecretRow};

    /// What it shows of a row.
    ghost shown: { SecretRow → Self };

    fn shown(alloc: Global, row: &SecretRow) -> Result<Self, NoMemory>
        ensures { IfOk result (λ made. made ≡ shown row.now) };
}

/// What is shown of the secrets with these serials, which come in the order of the walk.
pub(crate) fn shown_rows<T: Shown>(
    alloc: Global,
    table: &Table,
    descending: bool,
    serials: &[u64],
) -> Result<List<T>, NoMemory>
    ensures { IfOk result (λ list. list
        ≡ map T.shown (picked row_serial serials.now (ordered descending table.now.secrets))) }
{
    let mut list = List::empty(alloc);
    for step in 0..table.count() {
        if list.len() >= serials.len() {
            return Ok(list);
        }
        let row = row_at(table, descending, step);
        if is_next(serials, list.len(), row.serial) {
            list.push(T::shown(alloc, row)?)?;
        }
    }
    Ok(list)
}

/// Whether a serial is the one behind so many.
pub(crate) fn is_next(serials: &[u64], shown: usize, serial: u64) -> bool
    ensures { IsTrue result ↔ (slice_get serials.now shown ≡ Some serial) }
{
    match serials.get(shown) {
        Some(next) => *next == serial,
        None => false,
    }
}
