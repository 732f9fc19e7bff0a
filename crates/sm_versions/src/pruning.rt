//! The versions of a secret that are kept, and the dropping of the others (AWS Secrets Manager User Guide, "Secret
//! versions").
ghost use Rattle.std.specs.Prelude.{◌≡◌, ◌+◌, ◌||◌, nat_le, nat_lt, length, IsTrue};
ghost use Rattle.sm_base.specs.declared.limits.TheConstants.{NEWEST_KEPT, SECONDS_KEPT, VERSIONS_LIMIT};
ghost use Rattle.sm_model.specs.Labels.{is_labelled};
ghost use Rattle.sm_model.specs.Versions.{newer_than, is_kept, kept, counted, is_full_when};
ghost use Rattle.sm_versions.specs.Prune.{pruned, IsLeast};

use crate::labels::is_same_id;
use crate::when::When;
use sm_base::Picks;
use sm_base::limits::{NEWEST_KEPT, NO_SERIAL, SECONDS_KEPT, VERSIONS_LIMIT};
use sm_model::{Moment, Pair, SecretRow, SharedList, Token, VersionRow};

/// Whether the version has a label.
fn is_labelled(pairs: &[Pair], id: &Token) -> bool
    ensures { result ≡ is_labelled pairs.now id.now }
{
    pairs.iter().any(|pair| is_same_id(&pair.id, id))
}

/// How many versions were made after the one with the serial.
fn newer_than(versions: &SharedList<VersionRow>, serial: u64) -> usize
    ensures { result ≡ newer_than versions.now serial }
{
    let mut newer = 0;
    for place in 0..versions.len() {
        if let Some(version) = versions.get(place) {
            if serial < version.serial {
                newer += 1;
            }
        }
    }
    newer
}

/// Whether a version with the serial is among the newest, which are never dropped.
fn is_newest(versions: &SharedList<VersionRow>, serial: u64) -> bool
    ensures { result ≡ nat_lt (newer_than versions.now serial) NEWEST_KEPT }
{
    newer_than(versions, serial) < NEWEST_KEPT as usize
}

/// The greatest serial, or 0 where there is none.
fn greatest(versions: &SharedList<VersionRow>) -> u64
    ensures { newer_than versions.now result ≡ 0 }
{
    let mut greatest = 0;
    for place in 0..versions.len() {
        if let Some(version) = versions.get(place) {
            if greatest < version.serial {
                greatest = version.serial;
            }
        }
    }
    greatest
}

/// Whether it is the least serial of those that are among the newest.
#[tactic(auto, using(crate::proofs::PruneLemmas::least_first, crate::proofs::PruneLemmas::least_between))]
fn is_least(versions: &SharedList<VersionRow>, serial: u64) -> bool
    ensures { IsTrue result → IsLeast versions.now serial }
{
    if !is_newest(versions, serial) {
        return false;
    }
    serial == 0 || !is_newest(versions, serial - 1)
}

/// The serial of the version that has as many behind it as are kept beside it. It is the least of the newest where
/// serials rise, as they do in every secret.
fn likely_least(versions: &SharedList<VersionRow>) -> u64 {
    let newest = NEWEST_KEPT as usize;
    if versions.len() < newest {
        return 0;
    }
    match versions.get(versions.len() - newest) {
        Some(version) => version.serial,
        None => 0,
    }
}

/// The least serial of those that are among the newest, in whatever order they are.
#[tactic(auto, using(crate::proofs::PruneLemmas::none_from_start, crate::proofs::PruneLemmas::none_up_to, crate::proofs::PruneLemmas::greatest_is_newest))]
fn searched_least(versions: &SharedList<VersionRow>) -> u64
    ensures { IsLeast versions.now result }
{
    let mut low = 0;
    let mut high = greatest(versions);
    while low < high {
        let middle = low + (high - low) / 2;
        if is_newest(versions, middle) {
            high = middle;
        } else {
            low = middle + 1;
        }
    }
    low
}

/// The least serial of those that are among the newest, which are never dropped.
fn least_of_newest(versions: &SharedList<VersionRow>) -> u64
    ensures { IsLeast versions.now result }
{
    let likely = likely_least(versions);
    if is_least(versions, likely) {
        likely
    } else {
        searched_least(versions)
    }
}

/// Which versions of a secret are kept.
#[derive(Drop)]
struct Keeps<'a> {
    labels: &'a [Pair],
    moment: Moment,
    /// The least serial of the newest.
    least: u64,
}

impl<'a> Picks<VersionRow> for Keeps<'a> {
    ghost picked = { λ keeps version.
        is_labelled keeps.labels.now version.id || nat_lt keeps.moment.0 (version.made.0 + SECONDS_KEPT)
        || nat_le keeps.least version.serial };

    fn picks(&self, item: &VersionRow) -> bool {
        let age = self.moment.0.saturating_sub(item.made.0);
        self.least <= item.serial || age < SECONDS_KEPT || is_labelled(self.labels, &item.id)
    }
}

/// Whether the version is kept at the moment, where this is the least serial of the newest.
#[tactic(auto, using(crate::proofs::PruneLemmas::kept_told))]
fn is_kept(row: &SecretRow, moment: Moment, least: u64, version: &VersionRow) -> bool
    requires { IsLeast row.now.versions least }
    ensures { result ≡ is_kept row.now moment version.now }
{
    let age = moment.0.saturating_sub(version.made.0);
    least <= version.serial || age < SECONDS_KEPT || is_labelled(row.labels.as_slice(), &version.id)
}

/// How many versions of the secret are kept at the moment.
fn kept_count(row: &SecretRow, moment: Moment) -> usize
    ensures { result ≡ length (kept row.now moment).versions }
{
    let least = least_of_newest(&row.versions);
    let mut count = 0;
    for place in 0..row.versions.len() {
        if let Some(version) = row.versions.get(place) {
            if is_kept(row, moment, least, version) {
                count += 1;
            }
        }
    }
    count
}

/// Whether as many versions count as there may be. It goes over them only where there are as many.
#[tactic(auto, using(crate::proofs::PruneLemmas::counted_within))]
fn is_crowded(row: &SecretRow, when: When) -> bool
    ensures { result ≡ nat_le VERSIONS_LIMIT (length (counted row.now when)) }
{
    let limit = VERSIONS_LIMIT as usize;
    row.versions.len() >= limit && (!when.prunes || kept_count(row, when.moment) >= limit)
}

/// Whether no version may be added: as many count as there may be, or there is no serial left. It takes no memory.
pub fn is_full(row: &SecretRow, when: When) -> bool
    ensures { result ≡ is_full_when row.now when }
{
    is_crowded(row, when) || row.next_version == NO_SERIAL
}

/// The same as `prune`, by looking at each version.
fn drop_old(row: &mut SecretRow, moment: Moment)
    ensures { row.new ≡ kept row.old moment }
{
    let least = least_of_newest(&row.versions);
    let keeps = Keeps {
        labels: row.labels.as_slice(),
        moment,
        least,
    };
    row.versions.retain(&keeps);
}

/// Drops the versions that need not be kept: those without a label that were made a day ago or earlier, and than which
/// a hundred or more are newer. It goes over them only where there are more than a hundred. It takes no memory.
#[tactic(auto, using(crate::proofs::PruneLemmas::few_kept))]
pub fn prune(row: &mut SecretRow, moment: Moment)
    ensures { row.new ≡ kept row.old moment }
{
    if row.versions.len() > NEWEST_KEPT as usize {
        drop_old(row, moment);
    }
}

/// Drops the versions that need not be kept, where they are dropped with what is done. It takes no memory.
pub fn prune_when(row: &mut SecretRow, when: When)
    ensures { row.new ≡ pruned row.old when }
{
    if when.prunes {
        prune(row, when.moment);
    }
}
