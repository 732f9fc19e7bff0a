//! The forms of RotateSecret (AWS Secrets Manager API Reference, RotateSecret, RotationRulesType).
ghost use Rattle.std.specs.Prelude.{◌≡◌};
ghost use Rattle.sm_model.specs.Bounds.{fits};
ghost use Rattle.sm_cron.specs.Spelling.{is_schedule_expression};
ghost use Rattle.sm_forms.specs.RotateSecret.{is_period, name_both, are_rules, rules_form, rotate_forms};

use crate::members::{description_form, first_refusal, form_unless, token_form};
use sm_base::limits::DAYS_LIMIT;
use sm_base::spelled::is_secret_id;
use sm_cron::is_schedule_expression;
use sm_model::{RotateSecret, Rules, Text, Why};

/// The first form that fails.
pub fn rotate_forms(rotate: &RotateSecret) -> Option<Why>
    ensures { result ≡ rotate_forms rotate.now }
{
    first_refusal!(
        token_form(&rotate.client_request_token, "ClientRequestToken"),
        description_form(&rotate.rotation_lambda_arn, "RotationLambdaARN"),
        rules_form(&rotate.rotation_rules),
        form_unless(is_secret_id(rotate.secret_id.as_bytes()), "SecretId"),
    )
}

/// Whether so many days may lie between two rotations.
fn is_period(days: i64) -> bool
    ensures { result ≡ is_period days }
{
    1 <= days && days <= i64::from(DAYS_LIMIT)
}

/// Whether days that need not be there are some that may lie between two rotations.
fn may_be_period(days: Option<i64>) -> bool
    ensures { result ≡ fits is_period days }
{
    match days {
        Some(days) => is_period(days),
        None => true,
    }
}

/// Whether a text that need not be there is a schedule expression.
fn may_be_expression(text: &Option<Text>) -> bool
    ensures { result ≡ fits is_schedule_expression text.now }
{
    match text {
        Some(text) => is_schedule_expression(text.as_bytes()),
        None => true,
    }
}

/// Whether rules name days and a schedule expression.
fn name_both(rules: &Rules) -> bool
    ensures { result ≡ name_both rules.now }
{
    rules.days.is_some() && rules.schedule.is_some()
}

/// Whether rules are in their form.
fn are_rules(rules: &Rules) -> bool
    ensures { result ≡ are_rules rules.now }
{
    may_be_period(rules.days) && may_be_expression(&rules.schedule) && !name_both(rules)
}

/// The form of the rules of rotation.
fn rules_form(rules: &Option<Rules>) -> Option<Why>
    ensures { result ≡ rules_form rules.now }
{
    match rules {
        Some(rules) => form_unless(are_rules(rules), "RotationRules"),
        None => None,
    }
}
