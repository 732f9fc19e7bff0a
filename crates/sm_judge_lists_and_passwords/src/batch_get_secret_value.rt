//! Judging BatchGetSecretValue (AWS Secrets Manager API Reference, BatchGetSecretValue).
ghost use Rattle.std.specs.Prelude.{◌≡◌, ◌++◌, IfOk, OnOk, None};
ghost use Rattle.sm_access.specs.Admission.{admission};
ghost use Rattle.sm_forms.specs.BatchGetSecretValue.{batch_forms};
ghost use Rattle.sm_forms.specs.GetSecretValue.{get_forms};
ghost use Rattle.sm_judge_lists_and_passwords.specs.BatchGetSecretValue.{alone, denial, value_question, unless_refused, answered_to, IsValue, IsAnswer, value_shown, value_in, error_in, batch_of, batch_ask, row_arn, page_batch, secret_batch, batch_judgement};
ghost use Rattle.sm_judge_lists_and_passwords.specs.Pages.{IsPageAsk, page_rows, first_listed};
ghost use Rattle.sm_model.specs.Causes.{error_of, message_of};
ghost use Rattle.sm_model.specs.declared.request.Request.TheVariants as requests;
ghost use Rattle.sm_table.specs.Sound.{Sound};
ghost use Rattle.sm_judge_reads.specs.GetSecretValue.{get_judgement};

use crate::pages::{Shown, filters_given, listed, page_size, shown_rows};
use sm_access::{Admitted, admit_get};
use sm_base::limits::BATCH_LIMIT;
use sm_forms::get_secret_value::get_forms;
use sm_judge_common::Judged;
use sm_judge_reads::get_secret_value::judge_get;
use sm_listing::{Listed, PageAsk};
use sm_model::{
    BatchError, BatchGetSecretValue, Copied, GetSecretValue, GotSecret, List, Moment, NoMemory,
    Person, Reply, SecretBatch, SecretRow, Text, Why,
};
use sm_table::Table;
use std::alloc::Global;

/// Judges a BatchGetSecretValue of a person.
pub fn judge_batch(
    alloc: Global,
    table: &Table,
    person: &Person,
    moment: Moment,
    batch: &BatchGetSecretValue,
) -> Result<Judged, NoMemory>
    requires { batch_forms batch.now ≡ None }
    ensures judged { IfOk result (λ judged. judged
        ≡ batch_judgement (value_question table.now person.now moment) table.now moment batch.now) }

    // What filters name are the first of the rows that are listed behind the token.
    ensures rows { Sound table.now
        → page_rows table.now moment (batch_ask batch.now) ≡ first_listed table.now moment (batch_ask batch.now) }
{
    let reply = secret_batch(alloc, table, person, moment, batch)?;
    Judged::reads(alloc, Reply::BatchGetSecretValue(reply))
}

/// The values of a batch, by SecretIds or by filters.
fn secret_batch(
    alloc: Global,
    table: &Table,
    person: &Person,
    moment: Moment,
    batch: &BatchGetSecretValue,
) -> Result<SecretBatch, NoMemory>
    requires { batch_forms batch.now ≡ None }
    ensures { IfOk result (λ reply. reply
        ≡ secret_batch (answered_to person.now table.now moment) table.now moment (batch_ask batch.now)
        batch.now.secret_id_list) }
{
    match &batch.secret_id_list {
        Some(ids) => batch_of(alloc, table, person, moment, None, ids.as_slice()),
        None => {
            let ask = batch_ask(alloc, batch)?;
            page_batch(alloc, table, person, moment, &ask)
        }
    }
}

/// The page that the filters of a BatchGetSecretValue ask for.
#[tactic(auto, using(sm_forms::proofs::BatchGetSecretValueLemmas::batch_filters, sm_forms::proofs::BatchGetSecretValueLemmas::batch_max, sm_forms::proofs::BatchGetSecretValueLemmas::batch_next, crate::proofs::PageLemmas::page_asked))]
fn batch_ask(alloc: Global, batch: &BatchGetSecretValue) -> Result<PageAsk, NoMemory>
    requires { batch_forms batch.now ≡ None }
    ensures ask { IfOk result (λ ask. ask ≡ batch_ask batch.now) }
    ensures asks { IfOk result IsPageAsk }
{
    Ok(PageAsk {
        filters: filters_given(alloc, &batch.filters)?,
        planned: false,
        descending: false,
        max: page_size(BATCH_LIMIT, batch.max_results),
        token: batch.next_token.copy(alloc)?,
    })
}

/// The values of a page of secrets, each of which is named by its ARN.
fn page_batch(
    alloc: Global,
    table: &Table,
    person: &Person,
    moment: Moment,
    ask: &PageAsk,
) -> Result<SecretBatch, NoMemory>
    requires { IsPageAsk ask.now }
    ensures { IfOk result (λ reply. reply
        ≡ page_batch (answered_to person.now table.now moment) table.now moment ask.now) }
{
    let Listed { serials, next } = listed(alloc, table, moment, ask)?;
    let ids: List<Text> = shown_rows(alloc, table, ask.descending, serials.as_slice())?;
    batch_of(alloc, table, person, moment, next, ids.as_slice())
}

impl Shown for Text {
    ghost use Rattle.sm_judge_lists_and_passwords.specs.BatchGetSecretValue.{row_arn};

    ghost shown = { λ row. row_arn row };

    fn shown(alloc: Global, row: &SecretRow) -> Result<Text, NoMemory>
        ensures { IfOk result (λ made. made ≡ row_arn row.now) }
    {
        row.arn.as_text().copy(alloc)
    }
}

/// The values and the refusals of these SecretIds.
fn batch_of(
    alloc: Global,
    table: &Table,
    person: &Person,
    moment: Moment,
    next_token: Option<Text>,
    ids: &[Text],
) -> Result<SecretBatch, NoMemory>
    ensures { IfOk result (λ reply. reply
        ≡ batch_of (answered_to person.now table.now moment) next_token ids.now) }
{
    let mut errors = List::empty(alloc);
    let mut secret_values = List::empty(alloc);
    for id in ids {
        let judged = answered(alloc, table, person, moment, id)?;
        add(alloc, &mut errors, &mut secret_values, id, judged)?;
    }
    Ok(SecretBatch {
        errors,
        next_token,
        secret_values,
    })
}

/// Adds what a GetSecretValue of one SecretId is answered.
fn add(
    alloc: Global,
    errors: &mut List<BatchError>,
    values: &mut List<GotSecret>,
    id: &Text,
    judged: Judged,
) -> Result<(), NoMemory>
    requires { IsAnswer judged }
    ensures errors { OnOk result (errors.new ≡ errors.old ++ error_in id.now judged) }
    ensures values { OnOk result (values.new ≡ values.old ++ value_in judged) }
{
    match judged {
        Judged::Accept(reply, _) => add_value(values, reply.into_value()),
        Judged::Refuse(why) => add_error(alloc, errors, id, &why),
        Judged::Memory => unreachable!(),
    }
}

/// Adds the value that a reply shows.
fn add_value(values: &mut List<GotSecret>, reply: Reply) -> Result<(), NoMemory>
    requires { IsValue reply }
    ensures { OnOk result (values.new ≡ values.old ++ value_shown reply) }
{
    match reply.into_value() {
        Some(got) => {
            values.push(got)?;
            Ok(())
        }
        None => unreachable!(),
    }
}

/// Adds a refusal.
fn add_error(
    alloc: Global,
    errors: &mut List<BatchError>,
    id: &Text,
    why: &Why,
) -> Result<(), NoMemory>
    ensures { OnOk result (errors.new ≡ errors.old ++ error_in id.now (Judged.Refuse why.now)) }
{
    errors.push(refused(alloc, id, why)?)?;
    Ok(())
}

/// A refusal as an item of a batch.
fn refused(alloc: Global, id: &Text, why: &Why) -> Result<BatchError, NoMemory>
    ensures { IfOk result (λ error. error
        ≡ record { error_code = error_of why.now; message = message_of why.now; secret_id = id.now }) }
{
    Ok(BatchError {
        error_code: Text::fixed(why.error_name()),
        message: why.message(alloc)?,
        secret_id: id.copy(alloc)?,
    })
}

/// What the GetSecretValue that names this SecretId and nothing else is answered.
fn answered(
    alloc: Global,
    table: &Table,
    person: &Person,
    moment: Moment,
    id: &Text,
) -> Result<Judged, NoMemory>
    ensures judged { IfOk result (λ judged. judged ≡ answered_to person.now table.now moment id.now) }
    ensures answer { IfOk result IsAnswer }
{
    let get = alone(alloc, id)?;
    if let Some(why) = get_forms(&get) {
        return Ok(Judged::Refuse(why));
    }
    admitted(alloc, table, person, moment, &get)
}

/// What a GetSecretValue of a person is answered, whose forms pass.
fn admitted(
    alloc: Global,
    table: &Table,
    person: &Person,
    moment: Moment,
    get: &GetSecretValue,
) -> Result<Judged, NoMemory>
    requires { get_forms get.now ≡ None }
    ensures judged { IfOk result (λ judged. judged
        ≡ unless_refused (denial (admission table.now person.now moment (requests.GetSecretValue get.now)))
        (get_judgement table.now moment get.now)) }
    ensures answer { IfOk result IsAnswer }
{
    match admit_get(alloc, table, person, moment, get) {
        Admitted::Ok => judge_get(alloc, table, moment, get),
        Admitted::Denied(statement) => Ok(Judged::Refuse(Why::Denied(statement))),
        Admitted::Memory => Err(NoMemory),
    }
}

/// The GetSecretValue that names this SecretId and nothing else.
fn alone(alloc: Global, id: &Text) -> Result<GetSecretValue, NoMemory>
    ensures { IfOk result (λ get. get ≡ alone id.now) }
{
    Ok(GetSecretValue {
        secret_id: id.copy(alloc)?,
        version_id: None,
        version_stage: None,
    })
}
