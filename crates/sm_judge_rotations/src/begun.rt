//! Judging the start of a due rotation (AWS Secrets Manager User Guide, "Rotation schedules").
ghost use Rattle.std.specs.Prelude.{◌≡◌, ◌≤◌, IfOk, length};
ghost use Rattle.sm_base.specs.declared.moment.TheConstants.{LAST_READING};
ghost use Rattle.sm_base.specs.Drawn.{drawn_token};
ghost use Rattle.sm_judge_common.specs.Secrets.{finished_row};
ghost use Rattle.sm_rotation.specs.Begin.{begin_answer, begin_row};
ghost use Rattle.sm_rotation.specs.declared.starting.Began.TheVariants.{Ok as Begun};
ghost use Rattle.sm_judge_rotations.specs.Begun.{begun_on, begun_found, begun_change};

use sm_judge_common::row_change::finish;
use sm_model::{Arn, Change, Copied, NoMemory, SecretRow, Token};
use sm_rotation::{Began, begin, is_due};
use sm_table::Table;
use sm_versions::When;
use std::alloc::Global;

/// How many random bytes make a token.
pub const TOKEN_BYTES: usize = 16;

/// The number as it is stated, so that the constant stays it.
pub fn bytes_of_a_token_are_as_stated()
    ensures { TOKEN_BYTES ≡ 16 }
{}

/// The change that the start of a rotation makes in the secret with exactly this ARN, where it is due for the token of
/// the random bytes.
pub fn judge_begun(
    alloc: Global,
    table: &Table,
    when: When,
    drawn: &[u8],
    arn: &Arn,
) -> Result<Option<Change>, NoMemory>
    requires { when.moment.0 ≤ LAST_READING }
    ensures { IfOk result (λ change. change ≡ begun_change table.now when drawn.now arn.now) }
{
    if drawn.len() != TOKEN_BYTES {
        return Ok(None);
    }
    let token = token_of(alloc, drawn)?;
    match table.find_arn(arn, when.moment) {
        Some(row) => begin_if_due(alloc, row, when, &token),
        None => Ok(None),
    }
}

/// The token of 16 random bytes.
fn token_of(alloc: Global, drawn: &[u8]) -> Result<Token, NoMemory>
    requires { length drawn.now ≡ TOKEN_BYTES }
    ensures { IfOk result (λ token. token ≡ drawn_token drawn.now) }
{
    let mut random = [0u8; TOKEN_BYTES];
    random.copy_from_slice(drawn);
    Token::drawn(alloc, &random)
}

/// Starts the rotation in a copy of the row, where it is due for the token.
fn begin_if_due(
    alloc: Global,
    row: &SecretRow,
    when: When,
    token: &Token,
) -> Result<Option<Change>, NoMemory>
    requires { when.moment.0 ≤ LAST_READING }
    ensures { IfOk result (λ change. change ≡ begun_on row.now when token.now) }
{
    if !is_due(row, token, when) {
        return Ok(None);
    }
    let after = begun(alloc, row, when, token)?;
    Ok(Some(Change::Replace(after)))
}

/// A copy of the row, in which the rotation is started and the change finished.
fn begun(alloc: Global, row: &SecretRow, when: When, token: &Token) -> Result<SecretRow, NoMemory>
    requires moment { when.moment.0 ≤ LAST_READING }
    requires begins { begin_answer row.now token.now when ≡ Begun }
    ensures { IfOk result (λ after. after ≡ finished_row (begin_row row.now token.now when.moment) when) }
{
    let mut after = row.copy(alloc)?;
    match begin(alloc, &mut after, token, when) {
        Began::Ok => {
            finish(&mut after, when);
            Ok(after)
        }
        Began::Memory => Err(NoMemory),
        Began::Same | Began::NoCurrent | Began::Pending(_) | Began::Exists(_) | Began::TooMany(_) =>
            unreachable!(),
    }
}
