//! What the types of a base's parts say.
ghost use Rattle.std.specs.Prelude.{IfSome, IsTrue, IsUtf8, length, slice_get, ◌<◌};
ghost use Rattle.sm_base.specs.Spelling.{is_arn, is_label, is_name, is_token};
ghost use Rattle.sm_encoded_size.specs.Texts.{TagTexts, ValueText};
ghost use Rattle.sm_encoded_size.specs.Typed.{VersionTyped, VersionsTyped, PairTyped, PairsTyped, TextsTyped, RowTyped, RowsTyped, BaseTyped};

use sm_model::{
    Arn, KeptPolicy, Label, Name, Pair, SecretRow, SharedList, Tag, Text, Token, Value, VersionRow,
};
use sm_record::Base;

/// The law that a text is UTF-8.
fn note_text(text: &Text)
    ensures { IsUtf8 text.now }
{
    let _bytes = text.as_bytes();
}

/// The law that a text that is there is UTF-8.
fn note_optional(text: &Option<Text>)
    ensures { IfSome text.now IsUtf8 }
{
    match text {
        Some(text) => note_text(text),
        None => {}
    }
}

/// The law that the text of a policy that is there is UTF-8.
fn note_policy(policy: &Option<KeptPolicy>)
    ensures { IfSome policy.now IsUtf8 }
{
    match policy {
        Some(policy) => note_text(policy.text()),
        None => {}
    }
}

/// The law that an ARN is spelled as one.
fn note_arn(arn: &Arn)
    ensures { IsTrue (is_arn arn.now) }
{
    let _text = arn.as_text();
}

/// The law that a name is spelled as one.
fn note_name(name: &Name)
    ensures { IsTrue (is_name name.now) }
{
    let _text = name.as_text();
}

/// The law that a token is spelled as one.
fn note_token(token: &Token)
    ensures { IsTrue (is_token token.now) }
{
    let _text = token.as_text();
}

/// The law that a label is spelled as one.
fn note_label(label: &Label)
    ensures { IsTrue (is_label label.now) }
{
    let _text = label.as_text();
}

/// The law that the texts of tags are UTF-8.
fn note_tags(tags: &[Tag])
    ensures { TagTexts tags.now }
{
    match tags {
        [] => {}
        [tag, rest @ ..] => {
            note_text(&tag.key);
            note_text(&tag.value);
            note_tags(rest)
        }
    }
}

/// The law that labels and the ids beside them are spelled as such.
fn note_pairs(pairs: &[Pair])
    ensures { PairsTyped pairs.now }
{
    match pairs {
        [] => {}
        [pair, rest @ ..] => {
            note_label(&pair.label);
            note_token(&pair.id);
            note_pairs(rest)
        }
    }
}

/// The law that the text of a value that is there is UTF-8.
fn note_value(value: &Option<Value>)
    ensures { IfSome value.now ValueText }
{
    match value {
        Some(Value::Text(text)) => note_text(text),
        Some(Value::Bytes(_)) => {}
        None => {}
    }
}

/// What the types of a version's parts say.
fn note_version(version: &VersionRow)
    ensures { VersionTyped version.now }
{
    note_token(&version.id);
    note_value(&version.value);
}

/// The same of the version at a place.
fn note_version_at(versions: &SharedList<VersionRow>, at: usize)
    ensures { IfSome (slice_get versions.now at) VersionTyped }
{
    match versions.get(at) {
        Some(version) => note_version(version),
        None => {}
    }
}

/// The same of all versions.
#[tactic(auto, using(crate::proofs::TypedLemmas::versions_more, crate::proofs::TypedLemmas::versions_all))]
fn note_versions(versions: &SharedList<VersionRow>)
    ensures { VersionsTyped versions.now }
{
    for at in 0..versions.len() {
        note_version_at(versions, at);
    }
}

/// The law that the texts of a secret are UTF-8.
fn note_texts(row: &SecretRow)
    ensures { TextsTyped row.now }
{
    note_optional(&row.description);
    note_optional(&row.kms);
    note_optional(&row.rotation.lambda);
    note_optional(&row.rotation.schedule);
    note_policy(&row.policy);
    note_tags(row.tags.as_slice());
}

/// The law that the token of a secret's job is spelled as one, if it has a job.
fn note_job(row: &SecretRow)
    ensures { IfSome row.now.job (λ job. IsTrue (is_token job.token)) }
{
    match &row.job {
        Some(job) => note_token(&job.token),
        None => {}
    }
}

/// What the types of a secret's parts say.
fn note_row(row: &SecretRow)
    ensures { RowTyped row.now }
{
    note_arn(&row.arn);
    note_name(&row.name);
    note_texts(row);
    note_pairs(row.labels.as_slice());
    note_versions(&row.versions);
    note_job(row);
    let _next = row.next_version;
}

/// The same of all secrets.
#[tactic(auto, using(crate::proofs::TypedLemmas::rows_more, crate::proofs::TypedLemmas::rows_all))]
fn note_rows(rows: &[SecretRow])
    ensures { RowsTyped rows.now }
{
    for row in rows {
        note_row(row);
    }
}

/// What the types of a base's parts say.
pub fn note_base(base: &Base)
    ensures { BaseTyped base.now }
{
    note_rows(base.rows.secrets.as_slice());
    let _next = base.rows.next;
    let _entries = base.entries;
}
