//! Judging RotateSecret (AWS Secrets Manager API Reference, RotateSecret).
ghost use Rattle.std.specs.Prelude.{◌≡◌, ◌≤◌, IfOk, IfSome, IsTrue, None, Some, length};
ghost use Rattle.std.specs.Option.{option_or};
ghost use Rattle.sm_base.specs.declared.moment.TheConstants.{LAST_READING};
ghost use Rattle.sm_forms.specs.RotateSecret.{is_period, rotate_forms};
ghost use Rattle.sm_judge_common.specs.Secrets.{finished_row};
ghost use Rattle.sm_model.specs.Bounds.{fits};
ghost use Rattle.sm_model.specs.Needed.{token_bytes_if};
ghost use Rattle.sm_judge_rotations.specs.RotateSecret.{days_of, rules_given, plan_of, token_to_start, rotate_call, days_or, schedule_or, turned_on, dated, with_rotation, turned_on_in, rotated, rotate_accepted, rotate_repeated, started, start_on, wait_on, rotate_on, rotate_judged, rotate_judgement};

use sm_base::copy_two;
use sm_dates::next_rotation;
use sm_judge_common::Judged;
use sm_judge_common::members::{secret_id, token_or_drawn};
use sm_judge_common::row_change::finish;
use sm_judge_common::standing::standing;
use sm_model::{
    Change, Copied, Moment, NoMemory, Reply, RotateSecret, Rotation, Rules, SecretId, SecretRow,
    Text, Token, VersionedSecret, What, Why,
};
use sm_rotation::{Began, begin};
use sm_table::Table;
use sm_versions::When;
use std::alloc::Global;

/// The rules of rotation as a secret keeps them.
#[derive(Drop)]
pub struct KeptRules {
    /// The days between two rotations, where the rules name some.
    pub days: Option<u32>,
    /// The schedule expression, where the rules name one.
    pub schedule: Option<Text>,
}

/// What is given for the rotation of a secret.
#[derive(Drop)]
pub struct Plan {
    pub lambda: Option<Text>,
    pub rules: Option<KeptRules>,
}

/// A RotateSecret whose forms pass.
#[derive(Drop)]
pub struct RotateCall {
    pub id: SecretId,
    pub plan: Plan,
    /// The id of the version to rotate to, where the rotation starts at once.
    pub token: Option<Token>,
}

/// What the start of a rotation comes to.
#[derive(Drop)]
pub enum Start {
    /// The row with the rotation started.
    Begun(SecretRow),
    /// A rotation made the version of the token before.
    Repeat,
    Refused(Why),
}

/// Judges a RotateSecret.
pub fn judge_rotate(
    alloc: Global,
    table: &Table,
    when: When,
    drawn: &[u8],
    rotate: &RotateSecret,
) -> Result<Judged, NoMemory>
    requires forms { rotate_forms rotate.now ≡ None }
    requires moment { when.moment.0 ≤ LAST_READING }
    requires drawn { token_bytes_if rotate.now.rotate_immediately rotate.now.client_request_token
        ≤ length drawn.now }
    ensures { IfOk result (λ judged. judged ≡ rotate_judgement table.now when drawn.now rotate.now) }
{
    let call = rotate_call(alloc, drawn, rotate)?;
    judge_call(alloc, table, when, &call)
}

// ---- the members

/// The days that rules name.
fn days_of(days: Option<i64>) -> Option<u32>
    requires { IsTrue (fits is_period days) }
    ensures { result ≡ days_of days }
{
    match days {
        Some(days) => Some(days as u32),
        None => None,
    }
}

/// The rules that are given.
fn rules_given(alloc: Global, rules: &Option<Rules>) -> Result<Option<KeptRules>, NoMemory>
    requires { IfSome rules.now (λ r. IsTrue (fits is_period r.days)) }
    ensures { IfOk result (λ given. given ≡ rules_given rules.now) }
{
    match rules {
        Some(rules) => Ok(Some(KeptRules {
            days: days_of(rules.days),
            schedule: rules.schedule.copy(alloc)?,
        })),
        None => Ok(None),
    }
}

/// What a RotateSecret gives for the rotation.
#[tactic(auto, using(sm_forms::proofs::RotateSecretLemmas::rotate_rules))]
fn plan_of(alloc: Global, rotate: &RotateSecret) -> Result<Plan, NoMemory>
    requires { rotate_forms rotate.now ≡ None }
    ensures { IfOk result (λ plan. plan ≡ plan_of rotate.now) }
{
    Ok(Plan {
        lambda: rotate.rotation_lambda_arn.copy(alloc)?,
        rules: rules_given(alloc, &rotate.rotation_rules)?,
    })
}

/// The id of the version to rotate to, which is drawn where none is given, if the rotation is to start at once.
#[tactic(auto, using(sm_forms::proofs::RotateSecretLemmas::rotate_token, crate::proofs::RotateSecretLemmas::room_for_start))]
fn token_to_start(
    alloc: Global,
    drawn: &[u8],
    rotate: &RotateSecret,
) -> Result<Option<Token>, NoMemory>
    requires forms { rotate_forms rotate.now ≡ None }
    requires drawn { token_bytes_if rotate.now.rotate_immediately rotate.now.client_request_token
        ≤ length drawn.now }
    ensures { IfOk result (λ token. token ≡ token_to_start drawn.now rotate.now) }
{
    if rotate.rotate_immediately {
        let token = token_or_drawn(alloc, &rotate.client_request_token, drawn)?;
        Ok(Some(token))
    } else {
        Ok(None)
    }
}

/// The members of a RotateSecret, a token that is drawn too.
#[tactic(auto, using(sm_forms::proofs::RotateSecretLemmas::rotate_id))]
fn rotate_call(alloc: Global, drawn: &[u8], rotate: &RotateSecret) -> Result<RotateCall, NoMemory>
    requires forms { rotate_forms rotate.now ≡ None }
    requires drawn { token_bytes_if rotate.now.rotate_immediately rotate.now.client_request_token
        ≤ length drawn.now }
    ensures { IfOk result (λ call. call ≡ rotate_call drawn.now rotate.now) }
{
    Ok(RotateCall {
        id: secret_id(alloc, &rotate.secret_id)?,
        plan: plan_of(alloc, rotate)?,
        token: token_to_start(alloc, drawn, rotate)?,
    })
}

// ---- the tests

/// Judges a RotateSecret by the secret that it names.
#[tactic(auto, using(sm_judge_common::proofs::JudgedLemmas::judged_of_standing, sm_judge_common::proofs::JudgedLemmas::refused_unless_standing))]
fn judge_call(
    alloc: Global,
    table: &Table,
    when: When,
    call: &RotateCall,
) -> Result<Judged, NoMemory>
    requires { when.moment.0 ≤ LAST_READING }
    ensures { IfOk result (λ judged. judged ≡ rotate_judged table.now when call.now) }
{
    match standing(table, &call.id, when.moment) {
        Ok(row) => rotate_on(alloc, row, when, call),
        Err(why) => Ok(Judged::Refuse(why)),
    }
}

/// Turns the rotation of this row on, and starts it where there is a token for that.
fn rotate_on(
    alloc: Global,
    row: &SecretRow,
    when: When,
    call: &RotateCall,
) -> Result<Judged, NoMemory>
    requires { when.moment.0 ≤ LAST_READING }
    ensures { IfOk result (λ judged. judged ≡ rotate_on row.now when call.now.plan call.now.token) }
{
    match &call.token {
        Some(token) => start_on(alloc, row, when, &call.plan, token),
        None => wait_on(alloc, row, when, &call.plan),
    }
}

/// Starts the rotation of this row.
fn start_on(
    alloc: Global,
    row: &SecretRow,
    when: When,
    plan: &Plan,
    token: &Token,
) -> Result<Judged, NoMemory>
    requires { when.moment.0 ≤ LAST_READING }
    ensures { IfOk result (λ judged. judged ≡ start_on row.now when plan.now token.now) }
{
    match started(alloc, row, when, token)? {
        Start::Begun(after) => accept_start(alloc, after, when, plan, token),
        Start::Repeat => repeat(alloc, row, token),
        Start::Refused(why) => Ok(Judged::Refuse(why)),
    }
}

/// Starts the rotation in a copy of the row.
fn started(alloc: Global, row: &SecretRow, when: When, token: &Token) -> Result<Start, NoMemory>
    requires { when.moment.0 ≤ LAST_READING }
    ensures { IfOk result (λ start. start ≡ started row.now token.now when) }
{
    let mut after = row.copy(alloc)?;
    match begin(alloc, &mut after, token, when) {
        Began::Ok => Ok(Start::Begun(after)),
        Began::Same => Ok(Start::Repeat),
        Began::NoCurrent => Ok(Start::Refused(Why::NoCurrent)),
        Began::Pending(id) => Ok(Start::Refused(Why::Pending(id))),
        Began::Exists(id) => Ok(Start::Refused(Why::VersionExists(id))),
        Began::TooMany(limit) => Ok(Start::Refused(Why::Limit(limit, What::Versions))),
        Began::Memory => Err(NoMemory),
    }
}

/// The row in which the rotation was started, with its rotation on.
fn accept_start(
    alloc: Global,
    after: SecretRow,
    when: When,
    plan: &Plan,
    token: &Token,
) -> Result<Judged, NoMemory>
    ensures { IfOk result (λ judged. judged
        ≡ rotate_accepted (finished_row (turned_on_in plan.now after) when) (Some token.now)) }
{
    let rotation = turned_on(alloc, plan, &after.rotation)?;
    let version_id = token.copy(alloc)?;
    accept(alloc, after, rotation, when, Some(version_id))
}

/// Turns the rotation on in a copy of the row, which then waits for its next date.
fn wait_on(alloc: Global, row: &SecretRow, when: When, plan: &Plan) -> Result<Judged, NoMemory>
    requires { when.moment.0 ≤ LAST_READING }
    ensures { IfOk result (λ judged. judged ≡ wait_on row.now when plan.now) }
{
    let rotation = dated(when.moment, turned_on(alloc, plan, &row.rotation)?);
    let after = row.copy(alloc)?;
    accept(alloc, after, rotation, when, None)
}

// ---- the row

/// The Lambda ARN that is given, or else the one that is kept.
fn lambda_or(
    alloc: Global,
    given: &Option<Text>,
    kept: &Option<Text>,
) -> Result<Option<Text>, NoMemory>
    ensures { IfOk result (λ lambda. lambda ≡ option_or given.now kept.now) }
{
    match given {
        Some(lambda) => Ok(Some(lambda.copy(alloc)?)),
        None => Ok(kept.copy(alloc)?),
    }
}

/// The days of the rules that are given, also where they name none, or else those that are kept.
fn days_or(given: &Option<KeptRules>, kept: Option<u32>) -> Option<u32>
    ensures { result ≡ days_or given.now kept }
{
    match given {
        Some(rules) => rules.days,
        None => kept,
    }
}

/// The schedule of the rules that are given, also where they name none, or else the one that is kept.
fn schedule_or(
    alloc: Global,
    given: &Option<KeptRules>,
    kept: &Option<Text>,
) -> Result<Option<Text>, NoMemory>
    ensures { IfOk result (λ schedule. schedule ≡ schedule_or given.now kept.now) }
{
    match given {
        Some(rules) => Ok(rules.schedule.copy(alloc)?),
        None => Ok(kept.copy(alloc)?),
    }
}

/// The rotation turned on, with what is given, or else with what is kept.
fn turned_on(alloc: Global, plan: &Plan, kept: &Rotation) -> Result<Rotation, NoMemory>
    ensures { IfOk result (λ rotation. rotation ≡ turned_on plan.now kept.now) }
{
    Ok(Rotation {
        enabled: true,
        lambda: lambda_or(alloc, &plan.lambda, &kept.lambda)?,
        days: days_or(&plan.rules, kept.days),
        schedule: schedule_or(alloc, &plan.rules, &kept.schedule)?,
        next: kept.next,
        last: kept.last,
    })
}

/// The rotation with its next date by the schedule or the days that it keeps, or with none.
fn dated(moment: Moment, rotation: Rotation) -> Rotation
    requires { moment.0 ≤ LAST_READING }
    ensures { result ≡ dated moment rotation }
{
    let next = next_rotation(&rotation, moment);
    let mut rotation = rotation;
    rotation.next = next;
    rotation
}

/// A rotation takes the place of the one that was kept.
fn replace(kept: &mut Rotation, rotation: Rotation)
    ensures { kept.new ≡ rotation }
{
    *kept = rotation;
}

// ---- the reply

/// The reply that names the secret, and the version where the rotation starts at once.
fn rotated(
    alloc: Global,
    row: &SecretRow,
    version_id: Option<Token>,
) -> Result<VersionedSecret, NoMemory>
    ensures { IfOk result (λ reply. reply ≡ rotated row.now version_id) }
{
    let (arn, name) = copy_two(alloc, row.arn.as_text(), row.name.as_text())?;
    Ok(VersionedSecret {
        arn,
        name,
        version_id,
    })
}

/// The row with this rotation, to take the place of the old one.
fn accept(
    alloc: Global,
    after: SecretRow,
    rotation: Rotation,
    when: When,
    version_id: Option<Token>,
) -> Result<Judged, NoMemory>
    ensures { IfOk result (λ judged. judged
        ≡ rotate_accepted (finished_row (with_rotation rotation after) when) version_id) }
{
    let mut after = after;
    replace(&mut after.rotation, rotation);
    finish(&mut after, when);
    let reply = rotated(alloc, &after, version_id)?;
    Judged::changes(alloc, Reply::RotateSecret(reply), Change::Replace(after))
}

/// The answer to a repeat.
fn repeat(alloc: Global, row: &SecretRow, token: &Token) -> Result<Judged, NoMemory>
    ensures { IfOk result (λ judged. judged ≡ rotate_repeated row.now token.now) }
{
    let version_id = token.copy(alloc)?;
    let reply = rotated(alloc, row, Some(version_id))?;
    Judged::reads(alloc, Reply::RotateSecret(reply))
}
