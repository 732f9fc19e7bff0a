//! Look-ups by a name or an ARN.
ghost use Rattle.std.specs.Prelude.{◌≡◌, ◌&&◌, not, IsTrue, option_copied};
ghost use Rattle.sm_versions.specs.Texts.{once};
ghost use Rattle.sm_base.specs.Texts.{same_text};
ghost use Rattle.sm_table.specs.Sweep.{is_gone, swept};
ghost use Rattle.sm_table.specs.Found.{row_named, row_with_arn, row_with_short_arn, row_by_arn, short_arn};
ghost use Rattle.sm_table.specs.Index.{name_in};
ghost use Rattle.sm_table.specs.Indexed.{IsIndexed};
ghost use Rattle.sm_table.specs.Kept.{row_names, IsRising, EachArn};

use crate::deletion::is_gone;
use crate::indexed::Indexed;
use sm_model::{Arn, Moment, Name, SecretRow};

/// How many characters of an ARN are drawn when the secret is made, with the hyphen before them.
const SUFFIX: usize = 7;

/// How many characters stand before the name in the ARN of a secret.
const BEGINNING: usize = 53;

/// Whether the row has the ARN.
fn has_arn(row: &SecretRow, arn: &Arn) -> bool
    ensures { result ≡ same_text row.now.arn arn.now }
{
    row.arn.equals(arn)
}

/// The ARN without the hyphen and the characters that were drawn.
fn without_suffix(arn: &[u8]) -> &[u8]
    ensures { result.now ≡ short_arn arn.now }
{
    &arn[..arn.len().saturating_sub(SUFFIX)]
}

/// Whether the row has the ARN up to the hyphen and the characters that were drawn.
#[tactic(auto, unfolding(sm_base::specs::Texts::same_text))]
fn has_short_arn(row: &SecretRow, arn: &Arn) -> bool
    ensures { result ≡ same_text (short_arn row.now.arn) arn.now }
{
    without_suffix(row.arn.as_text().as_bytes()) == arn.as_text().as_bytes()
}

/// What stands in the place of the name in an ARN without its suffix.
#[tactic(auto, using(std::proofs::lemmas::List::drop_min), unfolding(crate::specs::Index::name_in))]
fn name_in(arn: &[u8]) -> &[u8]
    ensures { result.now ≡ name_in arn.now }
{
    arn.split_at(BEGINNING.min(arn.len())).1
}

/// The row with the name at the moment.
pub fn row_named<'a>(secrets: &'a Indexed, moment: Moment, name: &Name) -> Option<&'a SecretRow>
    requires kept { IsIndexed secrets.now }
    requires rising { IsRising secrets.now.rows.list }
    requires names { IsTrue (once (row_names secrets.now.rows.list)) }
    ensures { option_copied result ≡ row_named (swept secrets.now.rows.list moment) name.now }
{
    match secrets.named(name.as_text().as_bytes()) {
        Some(row) => {
            if is_gone(row, moment) {
                None
            } else {
                Some(row)
            }
        }
        None => None,
    }
}

/// Whether the row is there at the moment and has the ARN.
fn is_with_arn(row: &SecretRow, moment: Moment, arn: &Arn) -> bool
    ensures { result ≡ (not (is_gone row.now moment) && same_text row.now.arn arn.now) }
{
    !is_gone(row, moment) && has_arn(row, arn)
}

/// Whether the row is there at the moment and has the ARN without what was drawn.
fn is_with_short_arn(row: &SecretRow, moment: Moment, arn: &Arn) -> bool
    ensures { result ≡ (not (is_gone row.now moment) && same_text (short_arn row.now.arn) arn.now) }
{
    !is_gone(row, moment) && has_short_arn(row, arn)
}

/// The row with the ARN at the moment.
pub fn row_with_arn<'a>(secrets: &'a Indexed, moment: Moment, arn: &Arn) -> Option<&'a SecretRow>
    requires kept { IsIndexed secrets.now }
    requires rising { IsRising secrets.now.rows.list }
    requires names { IsTrue (once (row_names secrets.now.rows.list)) }
    requires arns { EachArn secrets.now.rows.list }
    ensures { option_copied result ≡ row_with_arn (swept secrets.now.rows.list moment) arn.now }
{
    match secrets.named(name_in(without_suffix(arn.as_text().as_bytes()))) {
        Some(row) => {
            if is_with_arn(row, moment, arn) {
                Some(row)
            } else {
                None
            }
        }
        None => None,
    }
}

/// The row with the ARN without what was drawn, at the moment.
fn row_with_short_arn<'a>(secrets: &'a Indexed, moment: Moment, arn: &Arn) -> Option<&'a SecretRow>
    requires kept { IsIndexed secrets.now }
    requires rising { IsRising secrets.now.rows.list }
    requires names { IsTrue (once (row_names secrets.now.rows.list)) }
    requires arns { EachArn secrets.now.rows.list }
    ensures { option_copied result ≡ row_with_short_arn (swept secrets.now.rows.list moment) arn.now }
{
    match secrets.named(name_in(arn.as_text().as_bytes())) {
        Some(row) => {
            if is_with_short_arn(row, moment, arn) {
                Some(row)
            } else {
                None
            }
        }
        None => None,
    }
}

/// The row that the ARN names at the moment: one with the whole ARN, or else one with the ARN without what was
/// drawn.
pub fn row_by_arn<'a>(secrets: &'a Indexed, moment: Moment, arn: &Arn) -> Option<&'a SecretRow>
    requires kept { IsIndexed secrets.now }
    requires rising { IsRising secrets.now.rows.list }
    requires names { IsTrue (once (row_names secrets.now.rows.list)) }
    requires arns { EachArn secrets.now.rows.list }
    ensures { option_copied result ≡ row_by_arn (swept secrets.now.rows.list moment) arn.now }
{
    match row_with_arn(secrets, moment, arn) {
        Some(row) => Some(row),
        None => row_with_short_arn(secrets, moment, arn),
    }
}
