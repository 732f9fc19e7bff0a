//! The start of a rotation (AWS Secrets Manager API Reference, RotateSecret).
ghost use Rattle.std.specs.Prelude.{◌≡◌, ◌≤◌, false, IfOk, OnOk, OnErr, option_copied, if◌then◌else◌};
ghost use Rattle.sm_base.specs.Outcomes.{OrMemory};
ghost use Rattle.sm_base.specs.declared.moment.TheConstants.{LAST_READING};
ghost use Rattle.sm_model.specs.Labels.{aws_pending};
ghost use Rattle.sm_versions.specs.Labels.{place};
ghost use Rattle.sm_model.specs.Versions.{is_full_when};
ghost use Rattle.sm_versions.specs.Versions.{version_of};
ghost use Rattle.sm_versions.specs.Kept.{KeptUnsettled};
ghost use Rattle.sm_versions.specs.Sound.{UnsettledSound};
ghost use Rattle.sm_rotation.specs.Begin.{is_of_rotation, begin_if_room, begin_new, begin_held, begin_answer, pending_version, first_job, begin_row, is_begun, has_begun, begin_told};
ghost use Rattle.sm_rotation.specs.Vouched.{Replies, RowVouched};

use sm_base::limits::VERSIONS_LIMIT;
use sm_model::{Copied, Job, List, Moment, NoMemory, Pair, SecretRow, Stage, Token, VersionRow};
use sm_versions::When;
use sm_versions::labels::{current, holder, is_same_id, pending};
use sm_versions::placing::place;
use sm_versions::pruning::is_full;
use sm_versions::versions::{has_version, version_of};
use std::alloc::Global;

/// What a start did.
#[derive(Drop)]
pub enum Began {
    /// An empty version is there under the token, with AWSPENDING, and a job for it.
    Ok,
    /// A rotation made the version of the token before.
    Same,
    /// No version is current.
    NoCurrent,
    /// AWSPENDING is on this version, which is not the current one.
    Pending(Token),
    /// A version has this token already.
    Exists(Token),
    /// So many versions of the secret count, and no more may be added.
    TooMany(u64),
    Memory,
}

/// Whether a rotation made the version of the token.
fn is_of_rotation(row: &SecretRow, token: &Token) -> bool
    ensures { result ≡ is_of_rotation (version_of row.now.versions token.now) }
{
    match version_of(&row.versions, token) {
        Some(version) => version.by_rotation,
        None => false,
    }
}

/// The last test: a version may be added.
fn begin_if_room(row: &SecretRow, when: When) -> Began
    ensures { result ≡ begin_if_room row.now when }
{
    if is_full(row, when) {
        Began::TooMany(VERSIONS_LIMIT)
    } else {
        Began::Ok
    }
}

/// The tests on the versions.
fn begin_new(alloc: Global, row: &SecretRow, token: &Token, when: When) -> Result<Began, NoMemory>
    ensures { IfOk result (λ began. began ≡ begin_new row.now token.now when) }
{
    if has_version(&row.versions, token) {
        return Ok(Began::Exists(token.copy(alloc)?));
    }
    Ok(begin_if_room(row, when))
}

/// The tests by the holders of AWSPENDING and AWSCURRENT.
fn begin_held(
    alloc: Global,
    row: &SecretRow,
    token: &Token,
    when: When,
    pending: Option<&Token>,
    current: Option<&Token>,
) -> Result<Began, NoMemory>
    ensures { IfOk result (λ began. began
        ≡ begin_held row.now token.now when (option_copied pending.entry) (option_copied current.entry)) }
{
    match (pending, current) {
        (_, None) => Ok(Began::NoCurrent),
        (None, Some(_)) => begin_new(alloc, row, token, when),
        (Some(pending), Some(current)) => {
            if is_same_id(pending, current) {
                begin_new(alloc, row, token, when)
            } else {
                Ok(Began::Pending(pending.copy(alloc)?))
            }
        }
    }
}

/// What a start answers.
fn begin_answer(
    alloc: Global,
    row: &SecretRow,
    token: &Token,
    when: When,
) -> Result<Began, NoMemory>
    ensures { IfOk result (λ began. began ≡ begin_answer row.now token.now when) }
{
    if is_of_rotation(row, token) {
        return Ok(Began::Same);
    }
    let pairs = row.labels.as_slice();
    begin_held(
        alloc,
        row,
        token,
        when,
        holder(pairs, &pending()),
        holder(pairs, &current()),
    )
}

/// The pairs with AWSPENDING placed on the version.
fn pending_placed(alloc: Global, pairs: &List<Pair>, id: &Token) -> Result<List<Pair>, NoMemory>
    ensures { IfOk result (λ placed. placed ≡ place pairs.now aws_pending id.now) }
{
    let mut placed = pairs.copy(alloc)?.into_vec();
    place(alloc, &mut placed, &pending(), id)?;
    Ok(List::new(placed))
}

/// An empty version, to be added to the row.
fn pending_version(
    alloc: Global,
    row: &SecretRow,
    token: &Token,
    moment: Moment,
) -> Result<VersionRow, NoMemory>
    ensures { IfOk result (λ version. version ≡ pending_version row.now token.now moment) }
{
    Ok(VersionRow {
        id: token.copy(alloc)?,
        serial: row.next_version,
        made: moment,
        value: None,
        rotated: None,
        by_rotation: true,
    })
}

/// The job at createSecret, attempt 1.
fn first_job(alloc: Global, token: &Token, moment: Moment) -> Result<Job, NoMemory>
    ensures { IfOk result (λ job. job ≡ first_job token.now moment) }
{
    Ok(Job {
        token: token.copy(alloc)?,
        stage: Stage::Create,
        attempt: 1,
        retry_at: moment,
        tested: None,
    })
}

/// Adds the version with AWSPENDING and the job.
fn start(alloc: Global, row: &mut SecretRow, token: &Token, when: When) -> Result<(), NoMemory>
    requires { is_full_when row.old when ≡ false }
    ensures done { OnOk result (row.new ≡ begin_row row.old token.now when.moment) }
    ensures err { OnErr result (row.new ≡ row.old) }
{
    let placed = pending_placed(alloc, &row.labels, token)?;
    let version = pending_version(alloc, row, token, when.moment)?;
    let job = first_job(alloc, token, when.moment)?;
    row.versions.push(alloc, version)?;
    row.next_version += 1;
    row.labels = placed;
    row.job = Some(job);
    Ok(())
}

/// The same as `begin`.
fn try_begin(
    alloc: Global,
    row: &mut SecretRow,
    token: &Token,
    when: When,
) -> Result<Began, NoMemory>
    ensures answer { IfOk result (λ began. began ≡ begin_answer row.old token.now when) }
    ensures row { row.new ≡ (if has_begun result then begin_row row.old token.now when.moment else row.old) }
{
    let began = begin_answer(alloc, row, token, when)?;
    if let Began::Ok = began {
        start(alloc, row, token, when)?;
    }
    Ok(began)
}

/// Starts a rotation of the secret at the moment, to a version whose id is the token. That version may be one more than
/// a secret may have, until those are dropped that did not count.
pub fn begin(alloc: Global, row: &mut SecretRow, token: &Token, when: When) -> Began
    requires { when.moment.0 ≤ LAST_READING }
    ensures answer { OrMemory (begin_told result) (begin_answer row.old token.now when) }
    ensures row { row.new ≡ (if is_begun result then begin_row row.old token.now when.moment else row.old) }
    ensures kept { KeptUnsettled row.old → KeptUnsettled row.new }
    ensures sound { UnsettledSound row.old → UnsettledSound row.new }
    ensures vouched { (replies : Replies) → RowVouched replies row.old → RowVouched replies row.new }
{
    match try_begin(alloc, row, token, when) {
        Ok(began) => began,
        Err(NoMemory) => Began::Memory,
    }
}
