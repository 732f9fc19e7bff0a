//! A value that a request gives for a secret, under its token, and what putting it into the secret comes to
//! (AWS Secrets Manager API Reference, CreateSecret, PutSecretValue and UpdateSecret).
ghost use Rattle.std.specs.Prelude.{◌≡◌, ◌||◌, ◌≤◌, IfOk, IfSome, IsTrue, is_some, length};
ghost use Rattle.sm_base.specs.Spelling.{is_token};
ghost use Rattle.sm_model.specs.Needed.{token_bytes_if};
ghost use Rattle.sm_judge_values.specs.NewValue.{new_value, token_of, versioned_secret, placed, is_repeat};

use sm_judge_common::members::{token_or_drawn, value_of};
use sm_model::{
    Bytes, Copied, Label, NoMemory, SecretRow, Text, Token, Value, VersionedSecret, What, Why,
};
use sm_versions::{PutDone, When, put};
use std::alloc::Global;

/// A value that is given, under its token.
#[derive(Drop)]
pub struct NewValue {
    pub token: Token,
    pub value: Value,
}

/// What putting a value into a secret comes to.
#[derive(Drop)]
pub enum Placed {
    /// The row with the value.
    Added(SecretRow),
    /// The version of the token has exactly this value already.
    Repeat,
    Refused(Why),
}

// ---- the members

/// The value that a request gives, if it gives one, under its token or one of drawn bytes.
#[tactic(auto, using(crate::proofs::NewValueLemmas::room_for_token))]
pub fn new_value(
    alloc: Global,
    token: &Option<Text>,
    drawn: &[u8],
    text: &Option<Text>,
    binary: &Option<Bytes>,
) -> Result<Option<NewValue>, NoMemory>
    requires spelled { IfSome token.now (λ t. IsTrue (is_token t)) }
    requires room { token_bytes_if (is_some text.now || is_some binary.now) token.now ≤ length drawn.now }
    ensures { IfOk result (λ new. new ≡ new_value token.now drawn.now text.now binary.now) }
{
    match value_of(alloc, text, binary)? {
        Some(value) => {
            let token = token_or_drawn(alloc, token, drawn)?;
            Ok(Some(NewValue { token, value }))
        }
        None => Ok(None),
    }
}

/// The token of the value, where there is one.
pub fn token_of(alloc: Global, new: &Option<NewValue>) -> Result<Option<Token>, NoMemory>
    ensures { IfOk result (λ token. token ≡ token_of new.now) }
{
    match new {
        Some(new) => Ok(Some(new.token.copy(alloc)?)),
        None => Ok(None),
    }
}

/// The reply that names the secret, and the version where a value was given.
pub fn versioned_secret(
    alloc: Global,
    row: &SecretRow,
    version_id: Option<Token>,
) -> Result<VersionedSecret, NoMemory>
    ensures { IfOk result (λ reply. reply ≡ versioned_secret row.now version_id) }
{
    Ok(VersionedSecret {
        arn: row.arn.as_text().copy(alloc)?,
        name: row.name.as_text().copy(alloc)?,
        version_id,
    })
}

// ---- putting it into a secret

/// Whether the version of the token has exactly the value.
pub fn is_repeat(row: &SecretRow, new: &Option<NewValue>) -> bool
    ensures { result ≡ is_repeat row.now new.now }
{
    match new {
        Some(new) => sm_versions::same(row, &new.token, &new.value),
        None => false,
    }
}

/// Puts the value into a copy of the row, with these labels.
pub fn place(
    alloc: Global,
    row: &SecretRow,
    new: &NewValue,
    labels: &[Label],
    when: When,
) -> Result<Placed, NoMemory>
    ensures { IfOk result (λ done. done ≡ placed row.now new.now labels.now when) }
{
    let mut after = row.copy(alloc)?;
    match put(alloc, &mut after, &new.token, &new.value, labels, when) {
        PutDone::Added => Ok(Placed::Added(after)),
        PutDone::Same(_) => Ok(Placed::Repeat),
        PutDone::Exists => Ok(Placed::Refused(Why::OtherValue(new.token.copy(alloc)?))),
        PutDone::TooMany(limit) => Ok(Placed::Refused(Why::Limit(limit, What::Versions))),
        PutDone::TooManyLabels(limit) => Ok(Placed::Refused(Why::Limit(limit, What::Labels))),
        PutDone::Memory => Err(NoMemory),
    }
}
