//! What the pairs of a query have given so far.
ghost use Rattle.std.specs.Prelude.{◌≡◌, IfOk, IfErr, OnOk, None, Some, is_some};
ghost use Rattle.sm_agent.specs.Queries.{pair_of, text_in};
ghost use Rattle.sm_agent.specs.Members.{no_members, member, with_member, key_refused, with_pair, IsRefusedBy};

use crate::cut::cut;
use crate::key::Key;
use crate::path::QueryRefused;
use crate::value::decoded;
use sm_base::{NoMemory, Text};
use std::alloc::Global;

/// The texts of the keys that had a pair.
#[derive(Drop)]
pub(crate) struct Members {
    pub secret_id: Option<Text>,
    pub version_id: Option<Text>,
    pub version_stage: Option<Text>,
    pub refresh_now: Option<Text>,
}

impl Members {
    /// None yet.
    pub(crate) fn none() -> Members
        ensures { result ≡ no_members }
    {
        Members {
            secret_id: None,
            version_id: None,
            version_stage: None,
            refresh_now: None,
        }
    }

    /// Whether a key has a text.
    fn has(&self, key: Key) -> bool
        ensures { result ≡ is_some (member self.now key) }
    {
        match key {
            Key::SecretId => self.secret_id.is_some(),
            Key::VersionId => self.version_id.is_some(),
            Key::VersionStage => self.version_stage.is_some(),
            Key::RefreshNow => self.refresh_now.is_some(),
        }
    }

    /// Gives a key a text.
    fn set(&mut self, key: Key, text: Text)
        ensures { self.new ≡ with_member self.old key text }
    {
        match key {
            Key::SecretId => self.secret_id = Some(text),
            Key::VersionId => self.version_id = Some(text),
            Key::VersionStage => self.version_stage = Some(text),
            Key::RefreshNow => self.refresh_now = Some(text),
        }
    }

    /// Adds the pair that a piece of a query is.
    pub(crate) fn add(&mut self, alloc: Global, piece: &str) -> Result<(), QueryRefused>
        ensures fine { OnOk result (key_refused self.old (pair_of piece.now) ≡ None) }
        ensures added { OnOk result (self.new ≡ with_pair self.old (pair_of piece.now)) }
        ensures refused { IfErr result (IsRefusedBy (key_refused self.old (pair_of piece.now))) }
    {
        let (spelled, text) = pair_of(alloc, piece)?;
        let Some(key) = Key::of(spelled) else {
            return Err(refusal(alloc, spelled));
        };
        let Some(text) = text else {
            return Err(refusal(alloc, spelled));
        };
        if !key.passes(text.as_str()) || self.has(key) {
            return Err(refusal(alloc, spelled));
        }
        self.set(key, text);
        Ok(())
    }
}

/// Refuses a key.
fn refusal(alloc: Global, key: &str) -> QueryRefused
    ensures { IsRefusedBy (Some key.now) result }
{
    match Text::from_str(alloc, key) {
        Ok(key) => QueryRefused::Key(key),
        Err(NoMemory) => QueryRefused::Memory,
    }
}

/// The key of a piece, and the text that its value stands for.
fn pair_of(alloc: Global, piece: &str) -> Result<(&str, Option<Text>), NoMemory>
    ensures { IfOk result (λ pair. (pair.0.now ≡ (pair_of piece.now).key) × (pair.1 ≡ (pair_of piece.now).text)) }
{
    match cut(piece, '=') {
        Some((key, value)) => Ok((key, decoded(alloc, value)?)),
        None => Ok((piece, None)),
    }
}
