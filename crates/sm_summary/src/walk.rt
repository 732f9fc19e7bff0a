//! The summary of an account.
ghost use Rattle.std.specs.Prelude.{◌≡◌, ◌≤◌, ◌<◌, ◌+◌, ◌*◌, ◌++◌, ◌∷◌, [], List, ℕ, IfOk, OnOk, length, slice_get, Some, string_bytes};
ghost use Rattle.sm_base.specs.declared.limits.TheConstants.{SECRETS_LIMIT, VERSIONS_LIMIT};
ghost use Rattle.sm_model.specs.declared.rows.SecretRow.{SecretRow as rows};
ghost use Rattle.sm_summary.specs.Summary.{IsCounted, IsShown, IsSummary, totals, totals_of, with_row};
ghost use Rattle.sm_table.specs.Sound.{Sound};
ghost use Rattle.sm_table.specs.Sweep.{is_gone, swept};
ghost use Rattle.sm_versions.specs.Sound.{RowSound};

use crate::line::line;
use sm_model::{Moment, NoMemory, RowList, SecretRow, Text};
use sm_table::Table;
use std::alloc::Global;

/// What was shown of some secrets: how many they are, how many versions they have, and their lines.
#[derive(Drop)]
pub struct Shown {
    pub secrets: u64,
    pub versions: u64,
    pub lines: String,
}

/// How many secrets were counted, and how many versions they have.
#[derive(Clone, Copy)]
pub struct Counted {
    pub secrets: u64,
    pub versions: u64,
}

/// The summary of the secrets that are still there at a moment, and of so many entries: a line with how much there is,
/// and then a line for each secret in order of creation.
pub fn summary(alloc: Global, table: &Table, moment: Moment, entries: u64) -> Result<Text, NoMemory>
    requires { Sound table.now }
    ensures summary { IfOk result (IsSummary table.now moment entries) }

    // No other text is it.
    ensures only { IfOk result (λ text. (other : List ℕ) → IsSummary table.now moment entries other → other ≡ text) }
{
    let shown = show_rows(alloc, table, moment)?;
    let text = with_totals(alloc, &shown, entries)?;
    Ok(Text::new(text))
}

/// The first line of the summary alone.
pub fn totals(
    alloc: Global,
    table: &Table,
    moment: Moment,
    entries: u64,
) -> Result<String, NoMemory>
    requires { Sound table.now }
    ensures { IfOk result (λ text. string_bytes text ≡ totals_of table.now moment entries) }
{
    let counted = count_rows(table, moment);
    Ok(format!(in alloc;
        "secrets {} versions {} entries {entries}\n",
        counted.secrets, counted.versions
    )?)
}

/// How many secrets are still there at the moment, and how many versions they have.
fn count_rows(table: &Table, moment: Moment) -> Counted
    requires { Sound table.now }
    ensures { IsCounted (swept table.now.secrets moment) result }
{
    let mut counted = Counted {
        secrets: 0,
        versions: 0,
    };
    for place in 0..table.count() {
        count_if_there(&mut counted, row_at(table, place), moment);
    }
    counted
}

/// Counts one secret more, where it is still there at the moment.
fn count_if_there(counted: &mut Counted, row: &SecretRow, moment: Moment)
    requires sound { RowSound row.now }
    requires secrets { counted.old.secrets ≤ SECRETS_LIMIT }
    requires versions { counted.old.versions ≤ VERSIONS_LIMIT * SECRETS_LIMIT }
    ensures counted { (before : List rows) → IsCounted before counted.old
        → IsCounted (with_row before row.now moment) counted.new }
    ensures secrets { counted.new.secrets ≤ counted.old.secrets + 1 }
    ensures versions { counted.new.versions ≤ counted.old.versions + VERSIONS_LIMIT }
{
    if is_gone(row, moment) {
        return;
    }
    counted.secrets += 1;
    counted.versions += row.versions.len() as u64;
}

/// The totals before the lines.
fn with_totals(alloc: Global, shown: &Shown, entries: u64) -> Result<String, NoMemory>
    ensures { IfOk result (λ text. string_bytes text
        ≡ totals shown.now.secrets shown.now.versions entries ++ string_bytes shown.now.lines) }
{
    Ok(format!(in alloc;
        "secrets {} versions {} entries {entries}\n{}",
        shown.secrets, shown.versions, shown.lines
    )?)
}

/// What is shown of the secrets that are still there at the moment.
fn show_rows(alloc: Global, table: &Table, moment: Moment) -> Result<Shown, NoMemory>
    requires { Sound table.now }
    ensures { IfOk result (IsShown (swept table.now.secrets moment)) }
{
    let mut shown = Shown {
        secrets: 0,
        versions: 0,
        lines: String::new(alloc),
    };
    for place in 0..table.count() {
        show_if_there(alloc, &mut shown, row_at(table, place), moment)?;
    }
    Ok(shown)
}

/// The row at a place.
#[tactic(auto, using(crate::proofs::WalkLemmas::sound_at))]
fn row_at(table: &Table, place: usize) -> &SecretRow
    requires within { place < length table.now.secrets }
    requires sound { Sound table.now }
    ensures row { slice_get table.now.secrets place ≡ Some result.now }
    ensures sound { RowSound result.now }
{
    match table.at(place) {
        Some(row) => row,
        None => unreachable!(),
    }
}

/// Whether the secret's deletion date is reached.
fn is_gone(row: &SecretRow, moment: Moment) -> bool
    ensures { result ≡ is_gone row.now moment }
{
    match row.deletion {
        Some(date) => date.0 <= moment.0,
        None => false,
    }
}

/// Shows one secret more, where it is still there at the moment.
fn show_if_there(
    alloc: Global,
    shown: &mut Shown,
    row: &SecretRow,
    moment: Moment,
) -> Result<(), NoMemory>
    requires sound { RowSound row.now }
    requires secrets { shown.old.secrets ≤ SECRETS_LIMIT }
    requires versions { shown.old.versions ≤ VERSIONS_LIMIT * SECRETS_LIMIT }
    ensures shown { OnOk result ((before : List rows) → IsShown before shown.old
        → IsShown (with_row before row.now moment) shown.new) }
    ensures secrets { OnOk result (shown.new.secrets ≤ shown.old.secrets + 1) }
    ensures versions { OnOk result (shown.new.versions ≤ shown.old.versions + VERSIONS_LIMIT) }
{
    if is_gone(row, moment) {
        return Ok(());
    }
    show_row(alloc, shown, row)
}

/// Shows one secret more.
#[tactic(auto, using(crate::proofs::WalkLemmas::shown_with))]
fn show_row(alloc: Global, shown: &mut Shown, row: &SecretRow) -> Result<(), NoMemory>
    requires sound { RowSound row.now }
    requires secrets { shown.old.secrets ≤ SECRETS_LIMIT }
    requires versions { shown.old.versions ≤ VERSIONS_LIMIT * SECRETS_LIMIT }
    ensures shown { OnOk result ((before : List rows) → IsShown before shown.old
        → IsShown (before ++ row.now ∷ []) shown.new) }
    ensures secrets { OnOk result (shown.new.secrets ≡ shown.old.secrets + 1) }
    ensures versions { OnOk result (shown.new.versions ≤ shown.old.versions + VERSIONS_LIMIT) }
{
    let line = line(alloc, row)?;
    shown.lines.push_str(line.as_str())?;
    shown.secrets += 1;
    shown.versions += row.versions.len() as u64;
    Ok(())
}
