//! The spelling of an entry that is due.
ghost use Rattle.std.specs.Prelude.{◌≤◌, length, IfOk, IfSome, IsTrue, IsUtf8};
ghost use Rattle.sm_base.specs.declared.moment.TheConstants.{LAST_READING};
ghost use Rattle.sm_base.specs.Spelling.{is_arn, is_token};
ghost use Rattle.sm_journal.specs.Records.{body_limit};
ghost use Rattle.sm_store.specs.Appends.{IsReady};
ghost use Rattle.sm_encoded_size.specs.Spellable.{IsSpellable};
ghost use Rattle.sm_encoded_size.specs.Texts.{ActTexts, AnswerText, EachText, TagTexts, TextsOf, ValueText};

use sm_model::{
    Act, Answer, Arn, Bytes, Entry, List, NoMemory, Request, Rules, Tag, Text, Token, Value,
};
use sm_record::encode;
use std::alloc::Global;

/// The spelling in the second format of an entry of an accepted request, of a start of a due rotation or of a report,
/// which is never too long for a record.
pub fn spell(alloc: Global, entry: &Entry) -> Result<Bytes, NoMemory>
    requires bound { entry.now.moment.0 ≤ LAST_READING }
    requires act { IsSpellable entry.now }
    ensures { IfOk result (λ ready. IsReady entry.now ready × (length ready ≤ body_limit)) }
{
    note_asker(entry);
    note_act(&entry.act);
    let ready = encode(alloc, entry)?;
    Ok(ready)
}

/// The law that the key and the ARN of the person who asked are UTF-8.
fn note_asker(entry: &Entry)
    ensures caller { IsUtf8 entry.now.caller }
    ensures by { IsUtf8 entry.now.by }
{
    note_text(&entry.caller);
    note_text(&entry.by);
}

/// The law that the texts of an act are UTF-8, and that its ARN and its token are spelled as such.
fn note_act(act: &Act)
    ensures { ActTexts act.now }
{
    match act {
        Act::Asked(request) => note_texts(request),
        Act::Begun(arn) => note_arn(arn),
        Act::Reported(arn, at, answer) => {
            note_arn(arn);
            note_token(&at.token);
            note_answer(answer);
        }
    }
}

/// The law that an ARN is spelled as one.
fn note_arn(arn: &Arn)
    ensures { IsTrue (is_arn arn.now) }
{
    let _text = arn.as_text();
}

/// The law that a token is spelled as one.
fn note_token(token: &Token)
    ensures { IsTrue (is_token token.now) }
{
    let _text = token.as_text();
}

/// The law that the text of an answer is UTF-8.
fn note_answer(answer: &Answer)
    ensures { AnswerText answer.now }
{
    match answer {
        Answer::Value(value) => note_value(value),
        Answer::Yes => {}
        Answer::No => {}
        Answer::Failed => {}
    }
}

/// The law that the text of a value is UTF-8.
fn note_value(value: &Value)
    ensures { ValueText value.now }
{
    match value {
        Value::Text(text) => note_text(text),
        Value::Bytes(_) => {}
    }
}

/// The law that the texts of a request that makes an entry are UTF-8.
fn note_texts(request: &Request)
    ensures { TextsOf request.now }
{
    match request {
        Request::CreateSecret(create) => {
            note_optional(&create.client_request_token);
            note_optional(&create.description);
            note_optional(&create.kms_key_id);
            note_text(&create.name);
            note_optional(&create.secret_string);
            note_optional_tags(&create.tags);
        }
        Request::PutSecretValue(put) => {
            note_optional(&put.client_request_token);
            note_text(&put.secret_id);
            note_optional(&put.secret_string);
        }
        Request::UpdateSecret(update) => {
            note_optional(&update.client_request_token);
            note_optional(&update.description);
            note_optional(&update.kms_key_id);
            note_text(&update.secret_id);
            note_optional(&update.secret_string);
        }
        Request::UpdateSecretVersionStage(update) => {
            note_optional(&update.move_to_version_id);
            note_optional(&update.remove_from_version_id);
            note_text(&update.secret_id);
            note_text(&update.version_stage);
        }
        Request::DeleteSecret(delete) => note_text(&delete.secret_id),
        Request::RestoreSecret(restore) => note_text(&restore.secret_id),
        Request::TagResource(tag) => {
            note_text(&tag.secret_id);
            note_tags(tag.tags.as_slice());
        }
        Request::UntagResource(untag) => {
            note_text(&untag.secret_id);
            note_each(untag.tag_keys.as_slice());
        }
        Request::ReplicateSecretToRegions(replicate) => note_text(&replicate.secret_id),
        Request::RemoveRegionsFromReplication(remove) => note_text(&remove.secret_id),
        Request::PutResourcePolicy(put) => {
            note_text(&put.resource_policy);
            note_text(&put.secret_id);
        }
        Request::DeleteResourcePolicy(delete) => note_text(&delete.secret_id),
        Request::RotateSecret(rotate) => {
            note_optional(&rotate.client_request_token);
            note_optional(&rotate.rotation_lambda_arn);
            note_rules(&rotate.rotation_rules);
            note_text(&rotate.secret_id);
        }
        Request::CancelRotateSecret(cancel) => note_text(&cancel.secret_id),
        _ => {}
    }
}

/// The law that the schedule of rules that are there is UTF-8, if they have one.
fn note_rules(rules: &Option<Rules>)
    ensures { IfSome rules.now (λ r. IfSome r.schedule IsUtf8) }
{
    match rules {
        Some(rules) => note_optional(&rules.schedule),
        None => {}
    }
}

/// The law that the texts of tags that are there are UTF-8.
fn note_optional_tags(tags: &Option<List<Tag>>)
    ensures { IfSome tags.now TagTexts }
{
    match tags {
        Some(tags) => note_tags(tags.as_slice()),
        None => {}
    }
}

/// The law that the texts of tags are UTF-8.
fn note_tags(tags: &[Tag])
    ensures { TagTexts tags.now }
{
    match tags {
        [] => {}
        [tag, rest @ ..] => {
            note_text(&tag.key);
            note_text(&tag.value);
            note_tags(rest)
        }
    }
}

/// The law that each of these texts is UTF-8.
fn note_each(texts: &[Text])
    ensures { EachText texts.now }
{
    match texts {
        [] => {}
        [text, rest @ ..] => {
            note_text(text);
            note_each(rest)
        }
    }
}

/// The law that a text that is there is UTF-8.
fn note_optional(text: &Option<Text>)
    ensures { IfSome text.now IsUtf8 }
{
    match text {
        Some(text) => note_text(text),
        None => {}
    }
}

/// The law that a text is UTF-8.
fn note_text(text: &Text)
    ensures { IsUtf8 text.now }
{
    let _bytes = text.as_bytes();
}
