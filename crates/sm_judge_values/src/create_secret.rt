//! Judging CreateSecret (AWS Secrets Manager API Reference, CreateSecret).
ghost use Rattle.std.specs.Prelude.{◌≡◌, ◌≤◌, [], IfOk, None, Some, length, take, unwrap_or};
ghost use Rattle.sm_base.specs.Drawn.{drawn_arn};
ghost use Rattle.sm_forms.specs.CreateSecret.{create_forms};
ghost use Rattle.sm_judge_common.specs.Regions.{with_regions};
ghost use Rattle.sm_judge_common.specs.Secrets.{unless_scheduled};
ghost use Rattle.sm_judge_values.specs.CreateSecret.{create_needs, first_of, names_of, details_of, create_call, first_version, no_rotation, empty_row, created_row, created_secret, with_first, has_too_many_tags, is_full, create_with_room, create_new, create_held, create_judged, create_judgement};

use crate::new_value::{NewValue, is_repeat, new_value, token_of};
use sm_base::limits::{NO_SERIAL, SECRETS_LIMIT, TAGS_LIMIT};
use sm_judge_common::Judged;
use sm_judge_common::regions::{replicas_shown, with_regions};
use sm_model::{
    Arn, Change, Copied, CreateSecret, CreatedSecret, List, Moment, Name, NoMemory, Pair, Reply,
    Rotation, SecretRow, SharedList, Tag, Text, Token, VersionRow, What, Why,
};
use sm_table::Table;
use sm_versions::labels::current;
use std::alloc::Global;

/// What a new secret is called.
#[derive(Drop)]
pub struct Names {
    pub arn: Arn,
    pub name: Name,
}

/// What is said of a new secret.
#[derive(Drop)]
pub struct Details {
    pub description: Option<Text>,
    pub kms: Option<Text>,
    pub tags: List<Tag>,
    /// Those that it is replicated to, none twice.
    pub regions: List<Text>,
}

/// A CreateSecret whose forms pass.
#[derive(Drop)]
pub struct CreateCall {
    pub names: Names,
    pub details: Details,
    /// The value that the secret begins with, where one is given.
    pub first: Option<NewValue>,
}

/// Judges a CreateSecret.
pub fn judge_create(
    alloc: Global,
    table: &Table,
    moment: Moment,
    drawn: &[u8],
    create: &CreateSecret,
) -> Result<Judged, NoMemory>
    requires forms { create_forms create.now ≡ None }
    requires drawn { create_needs create.now ≤ length drawn.now }
    ensures { IfOk result (λ judged. judged ≡ create_judgement table.now moment drawn.now create.now) }
{
    let call = create_call(alloc, drawn, create)?;
    judge_call(alloc, table, moment, call)
}

// ---- the members

/// The members of a CreateSecret, those that are drawn too.
fn create_call(alloc: Global, drawn: &[u8], create: &CreateSecret) -> Result<CreateCall, NoMemory>
    requires forms { create_forms create.now ≡ None }
    requires drawn { create_needs create.now ≤ length drawn.now }
    ensures { IfOk result (λ call. call ≡ create_call drawn.now create.now) }
{
    Ok(CreateCall {
        names: names_of(alloc, drawn, create)?,
        details: details_of(alloc, create)?,
        first: first_of(alloc, drawn, create)?,
    })
}

/// The name and the ARN, which ends in the characters of the first six bytes.
#[tactic(auto, using(sm_forms::proofs::CreateSecretLemmas::create_name))]
fn names_of(alloc: Global, drawn: &[u8], create: &CreateSecret) -> Result<Names, NoMemory>
    requires forms { create_forms create.now ≡ None }
    requires drawn { create_needs create.now ≤ length drawn.now }
    ensures { IfOk result (λ names. names ≡ names_of drawn.now create.now) }
{
    let name = Name::new(create.name.copy(alloc)?);
    let arn = new_arn(alloc, &name, drawn)?;
    Ok(Names { arn, name })
}

fn details_of(alloc: Global, create: &CreateSecret) -> Result<Details, NoMemory>
    ensures { IfOk result (λ details. details ≡ details_of create.now) }
{
    Ok(Details {
        description: create.description.copy(alloc)?,
        kms: create.kms_key_id.copy(alloc)?,
        tags: tags_of(alloc, &create.tags)?,
        regions: regions_of(alloc, &create.regions)?,
    })
}

/// The ARN of a new secret of this name.
fn new_arn(alloc: Global, name: &Name, drawn: &[u8]) -> Result<Arn, NoMemory>
    requires { 6 ≤ length drawn.now }
    ensures { IfOk result (λ arn. arn ≡ drawn_arn name.now (take 6 drawn.now)) }
{
    let mut random = [0u8; 6];
    random.copy_from_slice(&drawn[..6]);
    Arn::drawn(alloc, name, &random)
}

/// The value that the secret begins with, where one is given. The bytes of its token stand behind the six of the ARN.
#[tactic(auto, using(sm_forms::proofs::CreateSecretLemmas::create_token, crate::proofs::CreateSecretLemmas::room_behind_six))]
fn first_of(
    alloc: Global,
    drawn: &[u8],
    create: &CreateSecret,
) -> Result<Option<NewValue>, NoMemory>
    requires forms { create_forms create.now ≡ None }
    requires drawn { create_needs create.now ≤ length drawn.now }
    ensures { IfOk result (λ first. first ≡ first_of drawn.now create.now) }
{
    new_value(
        alloc,
        &create.client_request_token,
        &drawn[6..],
        &create.secret_string,
        &create.secret_binary,
    )
}

/// The tags that were given, if any were.
fn tags_of(alloc: Global, tags: &Option<List<Tag>>) -> Result<List<Tag>, NoMemory>
    ensures { IfOk result (λ list. list ≡ unwrap_or tags.now []) }
{
    match tags {
        Some(tags) => tags.copy(alloc),
        None => Ok(List::empty(alloc)),
    }
}

/// The replica regions that were given, each once.
fn regions_of(alloc: Global, given: &List<Text>) -> Result<List<Text>, NoMemory>
    ensures { IfOk result (λ regions. regions ≡ with_regions [] given.now) }
{
    let none: List<Text> = List::empty(alloc);
    with_regions(alloc, none.as_slice(), given.as_slice())
}

// ---- the tests

/// Judges a CreateSecret by the row that holds its name.
fn judge_call(
    alloc: Global,
    table: &Table,
    moment: Moment,
    call: CreateCall,
) -> Result<Judged, NoMemory>
    ensures { IfOk result (λ judged. judged ≡ create_judged table.now moment call) }
{
    match table.find_name(&call.names.name, moment) {
        Some(row) => {
            let judged = create_unless_scheduled(alloc, row, &call);
            drop(call);
            judged
        }
        None => create_new(alloc, table, moment, call),
    }
}

/// Judges a CreateSecret whose name this row holds.
fn create_unless_scheduled(
    alloc: Global,
    row: &SecretRow,
    call: &CreateCall,
) -> Result<Judged, NoMemory>
    ensures { IfOk result (λ judged. judged ≡ unless_scheduled row.now.deletion (create_held row.now call.now)) }
{
    match row.deletion {
        Some(date) => Ok(Judged::Refuse(Why::Scheduled(date))),
        None => create_held(alloc, row, call),
    }
}

/// Judges a CreateSecret whose name is held by this row, which is not scheduled for deletion.
fn create_held(alloc: Global, row: &SecretRow, call: &CreateCall) -> Result<Judged, NoMemory>
    ensures { IfOk result (λ judged. judged ≡ create_held row.now call.now) }
{
    if !is_repeat(row, &call.first) {
        return Ok(Judged::Refuse(Why::SecretExists(call.names.name.as_text().copy(alloc)?)));
    }
    let version_id = token_of(alloc, &call.first)?;
    let reply = created_secret(alloc, row, version_id)?;
    Judged::reads(alloc, Reply::CreateSecret(reply))
}

/// Whether there are more tags than a secret may have.
fn has_too_many_tags(tags: &List<Tag>) -> bool
    ensures { result ≡ has_too_many_tags tags.now }
{
    tags.len() > TAGS_LIMIT as usize
}

/// Whether no secret can be added.
fn is_full(table: &Table, moment: Moment) -> bool
    ensures { result ≡ is_full table.now moment }
{
    table.count_at(moment) >= SECRETS_LIMIT as usize || table.next() == NO_SERIAL
}

/// Judges a CreateSecret whose name is not held.
fn create_new(
    alloc: Global,
    table: &Table,
    moment: Moment,
    call: CreateCall,
) -> Result<Judged, NoMemory>
    ensures { IfOk result (λ judged. judged ≡ create_new table.now moment call) }
{
    if has_too_many_tags(&call.details.tags) {
        return Ok(Judged::Refuse(Why::Limit(TAGS_LIMIT, What::Tags)));
    }
    if is_full(table, moment) {
        return Ok(Judged::Refuse(Why::Limit(SECRETS_LIMIT, What::Secrets)));
    }
    create_with_room(alloc, table, moment, call)
}

/// Makes the row of the new secret.
fn create_with_room(
    alloc: Global,
    table: &Table,
    moment: Moment,
    call: CreateCall,
) -> Result<Judged, NoMemory>
    ensures { IfOk result (λ judged. judged ≡ create_with_room table.now moment call) }
{
    let version_id = token_of(alloc, &call.first)?;
    let row = created_row(alloc, table.next(), moment, call)?;
    let reply = created_secret(alloc, &row, version_id)?;
    Judged::changes(alloc, Reply::CreateSecret(reply), Change::Add(row))
}

/// The reply that names the secret, its replica regions where it has some, and the version where a value was given.
fn created_secret(
    alloc: Global,
    row: &SecretRow,
    version_id: Option<Token>,
) -> Result<CreatedSecret, NoMemory>
    ensures { IfOk result (λ reply. reply ≡ created_secret row.now version_id) }
{
    Ok(CreatedSecret {
        arn: row.arn.as_text().copy(alloc)?,
        name: row.name.as_text().copy(alloc)?,
        replication_status: replicas_shown(alloc, row.regions.as_slice())?,
        version_id,
    })
}

// ---- the row

/// No rotation.
fn no_rotation() -> Rotation
    ensures { result ≡ no_rotation }
{
    Rotation {
        enabled: false,
        lambda: None,
        days: None,
        schedule: None,
        next: None,
        last: None,
    }
}

/// The row of a new secret, without a version.
fn empty_row(
    alloc: Global,
    serial: u64,
    moment: Moment,
    names: Names,
    details: Details,
) -> SecretRow
    ensures { result ≡ empty_row serial moment names details }
{
    SecretRow {
        serial,
        arn: names.arn,
        name: names.name,
        created: moment,
        changed: moment,
        description: details.description,
        kms: details.kms,
        tags: details.tags,
        versions: SharedList::empty(alloc),
        next_version: 0,
        labels: List::empty(alloc),
        deletion: None,
        rotation: no_rotation(),
        policy: None,
        regions: details.regions,
        job: None,
    }
}

/// The row of a new secret.
fn created_row(
    alloc: Global,
    serial: u64,
    moment: Moment,
    call: CreateCall,
) -> Result<SecretRow, NoMemory>
    ensures { IfOk result (λ row. row ≡ created_row serial moment call) }
{
    let row = empty_row(alloc, serial, moment, call.names, call.details);
    match call.first {
        Some(first) => with_first(alloc, row, moment, first),
        None => Ok(row),
    }
}

/// The first version of a secret, under its token.
fn first_version(moment: Moment, first: NewValue) -> VersionRow
    ensures { result ≡ first_version moment first }
{
    VersionRow {
        id: first.token,
        serial: 0,
        made: moment,
        value: Some(first.value),
        rotated: None,
        by_rotation: false,
    }
}

/// The row with its first version, which is the current one.
fn with_first(
    alloc: Global,
    row: SecretRow,
    moment: Moment,
    first: NewValue,
) -> Result<SecretRow, NoMemory>
    ensures { IfOk result (λ made. made ≡ with_first row moment (Some first)) }
{
    let pair = Pair {
        label: current(),
        id: first.token.copy(alloc)?,
    };
    let mut labels = Vec::with_capacity(alloc, 1)?;
    labels.push(pair)?;
    let mut row = row;
    row.labels = List::new(labels);
    row.versions = SharedList::empty(alloc);
    row.versions.push(alloc, first_version(moment, first))?;
    row.next_version = 1;
    Ok(row)
}
