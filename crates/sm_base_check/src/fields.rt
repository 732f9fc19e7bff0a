//! Whether texts, numbers and dates fit that a secret may have or lack.
//! AWS Secrets Manager API Reference: CreateSecret (Description, KmsKeyId), RotateSecret (RotationLambdaARN),
//! RotationRulesType (AutomaticallyAfterDays,
//! ScheduleExpression).
ghost use Rattle.std.specs.Prelude.{◌≡◌};
ghost use Rattle.sm_policy_text.specs.Documents.{is_policy, has_policy_length, is_resource_policy};
ghost use Rattle.sm_cron.specs.Spelling.{is_schedule_expression};
ghost use Rattle.sm_model.specs.Bounds.{fits, is_description, is_small, is_attempt, are_days, is_date, is_rotation_date};
ghost use Rattle.sm_versions.specs.Sound.{is_rotation};

use sm_base::limits::{
    ATTEMPTS_LIMIT, DAYS_LIMIT, DESCRIPTION_LIMIT, LAST_DATE, LAST_ROTATION_DATE, POLICY_LIMIT,
    VALUE_LIMIT,
};
use sm_base::text::{characters, has_at_most};
use sm_cron::is_schedule_expression;
use sm_model::{KeptPolicy, Moment, Rotation, Text, Value};

/// Whether the text, if there is one, is not too long for a description.
pub fn description_fits(text: &Option<Text>) -> bool
    ensures { result ≡ fits is_description text.now }
{
    match text {
        Some(text) => has_at_most(text, DESCRIPTION_LIMIT),
        None => true,
    }
}

/// Whether the value, if there is one, is not too large.
pub fn value_fits(value: &Option<Value>) -> bool
    ensures { result ≡ fits is_small value.now }
{
    match value {
        Some(value) => value.len() <= VALUE_LIMIT,
        None => true,
    }
}

/// Whether a step of a rotation may have this attempt.
pub fn is_attempt(attempt: u32) -> bool
    ensures { result ≡ is_attempt attempt }
{
    1 <= attempt && attempt <= ATTEMPTS_LIMIT
}

/// Whether the attempt, if there is one, is one that a step of a rotation may have.
pub fn attempt_fits(attempt: Option<u32>) -> bool
    ensures { result ≡ fits is_attempt attempt }
{
    match attempt {
        Some(attempt) => is_attempt(attempt),
        None => true,
    }
}

/// Whether a secret may keep the date.
pub fn is_date(date: Moment) -> bool
    ensures { result ≡ is_date date }
{
    date.0 <= LAST_DATE
}

/// Whether the date, if there is one, is one that a secret may keep.
pub fn date_fits(date: Option<Moment>) -> bool
    ensures { result ≡ fits is_date date }
{
    match date {
        Some(date) => is_date(date),
        None => true,
    }
}

/// Whether so many days, if it is said how many, may lie between two rotations.
fn days_fit(days: Option<u32>) -> bool
    ensures { result ≡ fits are_days days }
{
    match days {
        Some(days) => 1 <= days && days <= DAYS_LIMIT,
        None => true,
    }
}

/// Whether the date, if there is one, may be that of the next rotation.
fn next_fits(date: Option<Moment>) -> bool
    ensures { result ≡ fits is_rotation_date date }
{
    match date {
        Some(date) => date.0 <= LAST_ROTATION_DATE,
        None => true,
    }
}

/// Whether each part of how a secret is rotated fits.
pub fn rotation_fits(rotation: &Rotation) -> bool
    ensures { result ≡ is_rotation rotation.now }
{
    description_fits(&rotation.lambda)
        && days_fit(rotation.days)
        && expression_fits(&rotation.schedule)
        && next_fits(rotation.next)
        && date_fits(rotation.last)
}

/// Whether the text, if there is one, is a schedule expression.
fn expression_fits(text: &Option<Text>) -> bool
    ensures { result ≡ fits is_schedule_expression text.now }
{
    match text {
        Some(text) => is_schedule_expression(text.as_bytes()),
        None => true,
    }
}

/// Whether the text, if there is one, may be a resource policy. It was read when it was kept: this takes no memory.
pub fn policy_fits(policy: &Option<KeptPolicy>) -> bool
    ensures { result ≡ fits is_resource_policy policy.now }
{
    match policy {
        Some(policy) => is_resource_policy(policy),
        None => true,
    }
}

/// Whether the text may be a resource policy.
#[tactic(auto, unfolding(sm_policy_text::specs::Documents::is_resource_policy))]
fn is_resource_policy(policy: &KeptPolicy) -> bool
    ensures { result ≡ is_resource_policy policy.now }
{
    has_policy_length(policy.text()) && is_policy(policy)
}

/// Whether the text has the length of a policy.
fn has_policy_length(text: &Text) -> bool
    ensures { result ≡ has_policy_length text.now }
{
    let count = characters(text);
    1 <= count && count <= POLICY_LIMIT
}

/// Whether the text is a policy.
#[tactic(auto, unfolding(sm_policy_text::specs::Documents::is_policy), using(crate::proofs::FieldLemmas::read_is))]
fn is_policy(policy: &KeptPolicy) -> bool
    ensures { result ≡ is_policy policy.now }
{
    policy.policy().is_some()
}
