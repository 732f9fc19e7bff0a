//! Judging GetSecretValue (AWS Secrets Manager API Reference, GetSecretValue).
ghost use Rattle.std.specs.Prelude.{◌≡◌, IfOk, None, Some};
ghost use Rattle.sm_forms.specs.GetSecretValue.{get_forms};
ghost use Rattle.sm_judge_reads.specs.GetSecretValue.{get_call, text_of, bytes_of, got_secret, get_version, get_found, get_on, get_judged, get_judgement};
ghost use Rattle.sm_table.specs.Changes.{row_with};
ghost use Rattle.sm_versions.specs.Find.{lookup, looked_up};

use sm_judge_common::Judged;
use sm_judge_common::labels_shown::labels_shown;
use sm_judge_common::members::{label_given, secret_id, token_given};
use sm_judge_common::standing::standing;
use sm_model::{
    Bytes, Copied, GetSecretValue, GotSecret, Label, Moment, NoMemory, Reply, SecretId, SecretRow,
    Text, Token, Value, VersionRow, Why,
};
use sm_table::Table;
use sm_versions::Found;
use std::alloc::Global;

/// A GetSecretValue whose forms pass.
#[derive(Drop)]
pub struct GetCall {
    pub id: SecretId,
    pub label: Option<Label>,
    pub version: Option<Token>,
}

/// Judges a GetSecretValue.
pub fn judge_get(
    alloc: Global,
    table: &Table,
    moment: Moment,
    get: &GetSecretValue,
) -> Result<Judged, NoMemory>
    requires { get_forms get.now ≡ None }
    ensures { IfOk result (λ judged. judged ≡ get_judgement table.now moment get.now) }
{
    let call = get_call(alloc, get)?;
    judge_call(alloc, table, moment, &call)
}

/// The members of a GetSecretValue.
#[tactic(auto, using(sm_forms::proofs::GetSecretValueLemmas::get_id, sm_forms::proofs::GetSecretValueLemmas::get_version, sm_forms::proofs::GetSecretValueLemmas::get_label))]
fn get_call(alloc: Global, get: &GetSecretValue) -> Result<GetCall, NoMemory>
    requires { get_forms get.now ≡ None }
    ensures { IfOk result (λ call. call ≡ get_call get.now) }
{
    Ok(GetCall {
        id: secret_id(alloc, &get.secret_id)?,
        label: label_given(alloc, &get.version_stage)?,
        version: token_given(alloc, &get.version_id)?,
    })
}

/// Judges a GetSecretValue by the secret that it names.
#[tactic(auto, using(sm_judge_common::proofs::JudgedLemmas::judged_of_standing, sm_judge_common::proofs::JudgedLemmas::refused_unless_standing))]
fn judge_call(
    alloc: Global,
    table: &Table,
    moment: Moment,
    call: &GetCall,
) -> Result<Judged, NoMemory>
    ensures { IfOk result (λ judged. judged ≡ get_judged table.now moment call.now) }
{
    match standing(table, &call.id, moment) {
        Ok(row) => get_on(alloc, table, row, call),
        Err(why) => Ok(Judged::Refuse(why)),
    }
}

/// Judges a GetSecretValue of this row of the table, which is not scheduled for deletion.
fn get_on(alloc: Global, table: &Table, row: &SecretRow, call: &GetCall) -> Result<Judged, NoMemory>
    requires { row_with table.now.secrets row.now.serial ≡ Some row.now }
    ensures { IfOk result (λ judged. judged ≡ get_on row.now call.now) }
{
    match version_of(table, row, call) {
        Found::Version(version) => get_version(alloc, row, version),
        Found::None => Ok(Judged::Refuse(Why::NoVersion)),
        Found::Differ => Ok(Judged::Refuse(Why::Differ)),
    }
}

/// The version that the call names, by the index of the row's labels.
fn version_of<'a>(table: &'a Table, row: &SecretRow, call: &GetCall) -> Found<'a>
    requires { row_with table.now.secrets row.now.serial ≡ Some row.now }
    ensures { looked_up result ≡ lookup row.now call.now.version call.now.label }
{
    match table.find_version(row.serial, call.version.as_ref(), call.label.as_ref()) {
        Some(found) => found,
        None => unreachable!(),
    }
}

/// The value of this version, or a refusal where it has none.
fn get_version(alloc: Global, row: &SecretRow, version: &VersionRow) -> Result<Judged, NoMemory>
    ensures { IfOk result (λ judged. judged ≡ get_version row.now version.now) }
{
    if version.value.is_none() {
        return Ok(Judged::Refuse(Why::NoVersion));
    }
    let reply = got_secret(alloc, row, version)?;
    Judged::reads(alloc, Reply::GetSecretValue(reply))
}

/// The reply that shows a version.
fn got_secret(alloc: Global, row: &SecretRow, version: &VersionRow) -> Result<GotSecret, NoMemory>
    ensures { IfOk result (λ got. got ≡ got_secret row.now version.now) }
{
    Ok(GotSecret {
        arn: row.arn.as_text().copy(alloc)?,
        created_date: version.made,
        name: row.name.as_text().copy(alloc)?,
        secret_binary: bytes_of(alloc, &version.value)?,
        secret_string: text_of(alloc, &version.value)?,
        version_id: version.id.copy(alloc)?,
        version_stages: labels_shown(alloc, row, &version.id)?,
    })
}

/// The text of a value that is text.
fn text_of(alloc: Global, value: &Option<Value>) -> Result<Option<Text>, NoMemory>
    ensures { IfOk result (λ text. text ≡ text_of value.now) }
{
    match value {
        Some(Value::Text(text)) => Ok(Some(text.copy(alloc)?)),
        Some(Value::Bytes(_)) => Ok(None),
        None => Ok(None),
    }
}

/// The bytes of a value that is bytes.
fn bytes_of(alloc: Global, value: &Option<Value>) -> Result<Option<Bytes>, NoMemory>
    ensures { IfOk result (λ bytes. bytes ≡ bytes_of value.now) }
{
    match value {
        Some(Value::Bytes(bytes)) => Ok(Some(bytes.copy(alloc)?)),
        Some(Value::Text(_)) => Ok(None),
        None => Ok(None),
    }
}
