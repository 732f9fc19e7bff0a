//! What the path of a request asks for: AWS Secrets Manager User Guide, "Using the AWS Secrets Manager Agent".
ghost use Rattle.std.specs.Prelude.{◌≡◌, ◌==◌, [], IfOk, IfErr, OnOk, None};
ghost use Rattle.std.specs.List.{before_first, after_first};
ghost use Rattle.sm_base.specs.Texts.{same_text};
ghost use Rattle.sm_base.specs.Outcomes.{OrMemory};
ghost use Rattle.sm_agent.specs.Queries.{get_path, is_fresh, pairs_of, first_bad, asked_by, text_query, query_of, read_told};
ghost use Rattle.sm_agent.specs.Members.{AreOf, IsRefusedBy, question_of};

use crate::cut::{cut, first_piece};
use crate::key::{Key, is_true};
use crate::members::Members;
use crate::question::Question;
use sm_base::text::same_text;
use sm_base::{NoMemory, Text};
use std::alloc::Global;
use std::str;

/// Why a path asks for nothing.
#[derive(Drop)]
pub enum QueryRefused {
    /// Another path.
    Path,
    /// The first key that is unknown, repeated or not in its form, as it is spelled, or the one that is absent.
    Key(Text),
    Memory,
}

impl From<NoMemory> for QueryRefused {
    ghost use Rattle.sm_agent.specs.declared.path.QueryRefused.TheVariants.{Memory};

    ghost from_gives = { λ _ refused. refused ≡ Memory };

    fn from(_error: NoMemory) -> QueryRefused {
        QueryRefused::Memory
    }
}

/// Whether a path is the one that answers questions.
#[tactic(auto, unfolding(crate::specs::Queries::get_path))]
fn is_get_path(path: &str) -> bool
    ensures { result ≡ same_text path.now get_path }
{
    same_text(path.as_bytes(), b"/secretsmanager/get")
}

/// The question that a path asks, and whether a fresh answer is wanted.
pub fn query(alloc: Global, path: &[u8]) -> Result<(Question, bool), QueryRefused>
    ensures { OrMemory (read_told result) (query_of path.now) }
{
    match str::from_utf8(path) {
        Ok(path) => text_query(alloc, path),
        Err(_) => Err(QueryRefused::Path),
    }
}

/// What stands before the first `?`, and what behind it.
fn parts(path: &str) -> (&str, &str)
    ensures path { result.0.now ≡ before_first (λ b. b == 63) path.now }
    ensures query { result.1.now ≡ after_first (λ b. b == 63) path.now }
{
    match cut(path, '?') {
        Some((path, query)) => (path, query),
        None => (path, ""),
    }
}

/// The same of a text.
fn text_query(alloc: Global, path: &str) -> Result<(Question, bool), QueryRefused>
    ensures { OrMemory (read_told result) (text_query path.now) }
{
    let (path, query) = parts(path);
    if is_get_path(path) {
        asked_by(alloc, query)
    } else {
        Err(QueryRefused::Path)
    }
}

/// What a query asks for.
fn asked_by(alloc: Global, query: &str) -> Result<(Question, bool), QueryRefused>
    ensures { OrMemory (read_told result) (asked_by query.now) }
{
    let members = members_of(alloc, query)?;
    question_of(members)
}

/// What the pairs of a query give, if all are fine.
#[tactic(auto, using(crate::proofs::QueryLemmas::begins, crate::proofs::QueryLemmas::begins_empty, crate::proofs::QueryLemmas::step, crate::proofs::QueryLemmas::all_given, crate::proofs::QueryLemmas::all_fine))]
fn members_of(alloc: Global, query: &str) -> Result<Members, QueryRefused>
    ensures members { IfOk result (AreOf (pairs_of query.now)) }
    ensures fine { OnOk result (first_bad [] (pairs_of query.now) ≡ None) }
    ensures refused { IfErr result (IsRefusedBy (first_bad [] (pairs_of query.now))) }
{
    let mut members = Members::none();
    let mut left = if query.is_empty() { None } else { Some(query) };
    while let Some(text) = left {
        let (piece, rest) = first_piece(text, '&');
        members.add(alloc, piece)?;
        left = rest;
    }
    Ok(members)
}

/// Whether a fresh answer is wanted.
fn is_fresh(refresh_now: &Option<Text>) -> bool
    ensures { result ≡ is_fresh refresh_now.now }
{
    match refresh_now {
        Some(text) => is_true(text.as_str()),
        None => false,
    }
}

/// What members ask for.
fn question_of(members: Members) -> Result<(Question, bool), QueryRefused>
    ensures { OrMemory (read_told result) (question_of members) }
{
    let Members {
        secret_id,
        version_id,
        version_stage,
        refresh_now,
    } = members;
    let fresh = is_fresh(&refresh_now);
    match secret_id {
        Some(secret_id) => Ok((
            Question {
                secret_id,
                version_id,
                version_stage,
            },
            fresh,
        )),
        None => Err(QueryRefused::Key(Text::fixed(Key::SecretId.text()))),
    }
}
