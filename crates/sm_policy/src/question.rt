//! Whether a policy allows what is asked (IAM User Guide, "Policy evaluation logic").
ghost use Rattle.std.specs.Prelude.{◌≡◌, ◌++◌, option_map};
ghost use Rattle.std.specs.List.{list_any};
ghost use Rattle.sm_base.specs.Texts.{same_text};
ghost use Rattle.sm_policy.specs.declared.pattern.Case.TheVariants.{Exact, Folded};
ghost use Rattle.sm_policy.specs.Patterns.{letters, wild};
ghost use Rattle.sm_policy.specs.Decisions.{plain_question, account_in, root_of, is_for, is_like, is_action, tag_value, value_of, equals_one, like_one, test_holds, block_holds, condition_holds, matches, denies, allows, first_number, decision, is_everybody, is_open, public_number};

use crate::pattern::{Case, is_match};
use crate::spread::{Sought, has_gap, nothing, spread_text};
use sm_base::Text;
use sm_base::text::same_text;
use sm_model::{Person, SecretRow, Tag};
use sm_policy_text::document::counted;
use sm_policy_text::{
    Block, Condition, Effect, Key, Operator, Pattern, Policy, Principal, Principals, Statement,
    Test,
};

/// What is asked: may this person do this with this secret?
#[derive(Clone, Copy)]
pub struct Question<'a> {
    pub person: &'a Person,
    /// The action's whole name, as `secretsmanager:GetSecretValue`.
    pub action: &'a [u8],
    pub row: &'a SecretRow,
    /// The SecretId as the request gives it.
    pub secret_id: &'a [u8],
    pub version_id: Option<&'a [u8]>,
    /// The label that is asked for. A GetSecretValue that names neither an id nor a label asks for AWSCURRENT.
    pub version_stage: Option<&'a [u8]>,
}

/// What a policy says to a question, with the number of the first statement that says so, counted from 1.
#[derive(Clone, Copy, Debug, PartialEq, Eq)]
pub enum Decision {
    Allow(u32),
    Deny(u32),
    /// No statement matches.
    Silent,
}

/// A question, with its texts as patterns are matched with them.
#[derive(Clone, Copy)]
struct Asked<'a> {
    question: &'a Question<'a>,
    action: Sought<'a>,
    arn: Sought<'a>,
    ghost action_is: { (action.case ≡ Folded) × (action.text.now ≡ question.now.action.now) },
    ghost arn_is: { (arn.case ≡ Exact) × (arn.text.now ≡ question.now.row.now.arn) },
}

/// Whether a principal is everybody, the person's account, or the person with this ARN.
fn is_for(arn: &[u8], principal: &Principal) -> bool
    ensures { result ≡ is_for arn.now principal.now }
{
    let named = principal.0.as_bytes();
    let account = account_in(arn);
    same_text(named, b"*")
        || same_text(named, account)
        || is_root_of(account, named)
        || same_text(named, arn)
}

/// The account in the ARN of a person.
fn account_in(arn: &[u8]) -> &[u8]
    ensures { result.now ≡ account_in arn.now }
{
    let start = arn.len().min(13);
    let end = arn.len().min(25);
    &arn[start..end]
}

/// Whether a text is these three, one after the other.
#[tactic(auto, using(crate::proofs::TextLemmas::is_joined, crate::proofs::TextLemmas::not_joined))]
fn is_joined(text: &[u8], front: &[u8], middle: &[u8], end: &[u8]) -> bool
    ensures { result ≡ same_text text.now (front.now ++ (middle.now ++ end.now)) }
{
    let Some(rest) = text.strip_prefix(front) else {
        return false;
    };
    let Some(rest) = rest.strip_prefix(middle) else {
        return false;
    };
    same_text(rest, end)
}

/// Whether the text is the ARN that stands for a whole account.
fn is_root_of(account: &[u8], text: &[u8]) -> bool
    ensures { result ≡ same_text text.now (root_of account.now) }
{
    is_joined(text, b"arn:aws:iam::", account, b":root")
}

/// The value of the tag with the key.
#[tactic(auto, using(crate::proofs::DecisionLemmas::tag_here, crate::proofs::DecisionLemmas::tag_later, crate::proofs::DecisionLemmas::tag_none))]
fn tag_value<'a>(tags: &'a [Tag], key: &[u8]) -> Option<&'a [u8]>
    ensures { option_map (λ t. t.now) result ≡ tag_value tags.now key.now }
{
    for tag in tags {
        if same_text(tag.key.as_bytes(), key) {
            return Some(tag.value.as_bytes());
        }
    }
    None
}

/// The value of a key in a question.
fn value_of<'a>(key: &Key, question: &Question<'a>) -> Option<&'a [u8]>
    ensures { option_map (λ t. t.now) result ≡ value_of key.now (plain_question question.now) }
{
    match key {
        Key::VersionStage => question.version_stage,
        Key::VersionId => question.version_id,
        Key::Name => Some(question.row.name.as_text().as_bytes()),
        Key::SecretId => Some(question.secret_id),
        Key::ResourceTag(key) => tag_value(question.row.tags.as_slice(), key.as_bytes()),
    }
}

fn equals_one(texts: &[Text], value: &[u8]) -> bool
    ensures { result ≡ equals_one texts.now value.now }
{
    texts.iter().any(|text| same_text(text.as_bytes(), value))
}

/// Whether one of the texts, as a pattern, matches the value.
fn like_one(texts: &[Text], value: &[u8]) -> bool
    ensures { result ≡ like_one texts.now value.now }
{
    if texts.iter().any(|text| has_gap(text.as_bytes())) {
        return like_one_at_once(texts, value);
    }
    texts
        .iter()
        .any(|text| is_match(Case::Exact, text.as_bytes(), value))
}

/// The same by a spread of the value. Only this function has room for one, since room costs a function as much as to
/// fill it.
fn like_one_at_once(texts: &[Text], value: &[u8]) -> bool
    ensures { result ≡ like_one texts.now value.now }
{
    let mut spread = nothing();
    let is_whole = spread_text(&mut spread, Case::Exact, value);
    let sought = Sought::spread(Case::Exact, value, &spread, is_whole);
    texts.iter().any(|text| sought.is_matched(text.as_bytes()))
}

/// Whether a key's test holds. StringNotEquals holds also where there is no value.
fn test_holds(question: &Question<'_>, operator: Operator, test: &Test) -> bool
    ensures { result ≡ test_holds (plain_question question.now) operator test.now }
{
    let texts = test.values.as_slice();
    match value_of(&test.key, question) {
        Some(value) => match operator {
            Operator::StringEquals => equals_one(texts, value),
            Operator::StringNotEquals => !equals_one(texts, value),
            Operator::StringLike => like_one(texts, value),
        },
        None => operator == Operator::StringNotEquals,
    }
}

fn block_holds(question: &Question<'_>, block: &Block) -> bool
    ensures { result ≡ block_holds (plain_question question.now) block.now }
{
    let operator = block.operator;
    block
        .tests
        .as_slice()
        .iter()
        .all(|test| test_holds(question, operator, test))
}

fn condition_holds(question: &Question<'_>, condition: &Condition) -> bool
    ensures { result ≡ condition_holds (plain_question question.now) condition.now }
{
    condition
        .0
        .as_slice()
        .iter()
        .all(|block| block_holds(question, block))
}

fn is_for_one(arn: &[u8], principals: &Principals) -> bool
    ensures { result ≡ list_any (is_for arn.now) principals.now.0 }
{
    principals
        .0
        .as_slice()
        .iter()
        .any(|principal| is_for(arn, principal))
}

/// Whether one of the patterns matches the text.
fn is_like_pattern(sought: &Sought<'_>, patterns: &[Pattern]) -> bool
    ensures { result ≡ list_any (λ p. wild (letters sought.now.case p.0) (letters sought.now.case sought.now.text.now))
        patterns.now }
{
    patterns
        .iter()
        .any(|pattern| sought.is_matched(pattern.0.as_bytes()))
}

fn is_action_of_one(asked: &Asked<'_>, patterns: &[Pattern]) -> bool
    ensures { result ≡ list_any (is_action asked.now.question.now.action.now) patterns.now }
{
    is_like_pattern(&asked.action, patterns)
}

fn is_like_one(asked: &Asked<'_>, patterns: &[Pattern]) -> bool
    ensures { result ≡ list_any (is_like asked.now.question.now.row.now.arn) patterns.now }
{
    is_like_pattern(&asked.arn, patterns)
}

/// Whether a statement matches by its principal, its action, its resource and its condition.
#[tactic(auto, unfolding(crate::specs::Decisions::matches))]
fn matches(asked: &Asked<'_>, statement: &Statement) -> bool
    ensures { result ≡ matches (plain_question asked.now.question.now) statement.now }
{
    is_for_one(asked.question.person.arn.as_bytes(), &statement.principals)
        && is_action_of_one(asked, statement.actions.as_slice())
        && is_like_one(asked, statement.resources.as_slice())
        && condition_holds(asked.question, &statement.condition)
}

fn denies(asked: &Asked<'_>, statement: &Statement) -> bool
    ensures { result ≡ denies (plain_question asked.now.question.now) statement.now }
{
    statement.effect == Effect::Deny && matches(asked, statement)
}

fn allows(asked: &Asked<'_>, statement: &Statement) -> bool
    ensures { result ≡ allows (plain_question asked.now.question.now) statement.now }
{
    statement.effect == Effect::Allow && matches(asked, statement)
}

/// Whether a statement allows everybody something, whatever is asked.
#[tactic(auto, unfolding(crate::specs::Decisions::is_open))]
fn is_open(statement: &Statement) -> bool
    ensures { result ≡ is_open statement.now }
{
    statement.effect == Effect::Allow
        && has_everybody(&statement.principals)
        && statement.condition.0.is_empty()
}

fn has_everybody(principals: &Principals) -> bool
    ensures { result ≡ list_any is_everybody principals.now.0 }
{
    principals
        .0
        .as_slice()
        .iter()
        .any(|principal| same_text(principal.0.as_bytes(), b"*"))
}

/// The number of the first statement that denies the question.
#[tactic(auto, using(crate::proofs::DecisionLemmas::number_here, crate::proofs::DecisionLemmas::number_later, crate::proofs::DecisionLemmas::number_none))]
fn first_denial(asked: &Asked<'_>, statements: &[Statement]) -> Option<u32>
    ensures { result ≡ first_number (denies (plain_question asked.now.question.now)) 0 statements.now }
{
    for (place, statement) in statements.iter().enumerate() {
        if denies(asked, statement) {
            return Some(counted(place));
        }
    }
    None
}

/// The number of the first statement that allows the question.
#[tactic(auto, using(crate::proofs::DecisionLemmas::number_here, crate::proofs::DecisionLemmas::number_later, crate::proofs::DecisionLemmas::number_none))]
fn first_allowance(asked: &Asked<'_>, statements: &[Statement]) -> Option<u32>
    ensures { result ≡ first_number (allows (plain_question asked.now.question.now)) 0 statements.now }
{
    for (place, statement) in statements.iter().enumerate() {
        if allows(asked, statement) {
            return Some(counted(place));
        }
    }
    None
}

/// Whether one of the patterns has a gap.
fn has_gaps(patterns: &[Pattern]) -> bool {
    patterns.iter().any(|pattern| has_gap(pattern.0.as_bytes()))
}

/// What the policy says: the first statement that denies, or else the first that allows. It takes no memory.
pub fn decide(policy: &Policy, question: &Question<'_>) -> Decision
    ensures { result ≡ decision policy.now (plain_question question.now) }
{
    let person = question.person.arn.as_bytes();
    let meets_gap = policy.statements.as_slice().iter().any(|statement| {
        has_gaps(statement.actions.as_slice()) && is_for_one(person, &statement.principals)
    });
    if meets_gap {
        decide_over_action(policy, question)
    } else {
        let action = Sought::walked(Case::Folded, question.action);
        decide_by_action(policy, question, action)
    }
}

/// The same by a spread of the action. Only this function has room for it, since room costs a function as much as to
/// fill it.
fn decide_over_action(policy: &Policy, question: &Question<'_>) -> Decision
    ensures { result ≡ decision policy.now (plain_question question.now) }
{
    let mut spread = nothing();
    let is_whole = spread_text(&mut spread, Case::Folded, question.action);
    let action = Sought::spread(Case::Folded, question.action, &spread, is_whole);
    decide_by_action(policy, question, action)
}

/// The same, with the action as patterns are matched with it.
fn decide_by_action<'a>(policy: &Policy, question: &'a Question<'a>, action: Sought<'a>) -> Decision
    requires { (action.case ≡ Folded) × (action.text.now ≡ question.now.action.now) }
    ensures { result ≡ decision policy.now (plain_question question.now) }
{
    let person = question.person.arn.as_bytes();
    let meets_gap = policy.statements.as_slice().iter().any(|statement| {
        has_gaps(statement.resources.as_slice()) && is_for_one(person, &statement.principals)
    });
    if meets_gap {
        decide_over_arn(policy, question, action)
    } else {
        let arn = Sought::walked(Case::Exact, question.row.arn.as_text().as_bytes());
        let asked = Asked {
            question,
            action,
            arn,
        };
        decide_asked(policy, &asked)
    }
}

/// The same by a spread of the ARN, for which only this function has room.
fn decide_over_arn<'a>(policy: &Policy, question: &'a Question<'a>, action: Sought<'a>) -> Decision
    requires { (action.case ≡ Folded) × (action.text.now ≡ question.now.action.now) }
    ensures { result ≡ decision policy.now (plain_question question.now) }
{
    let text = question.row.arn.as_text().as_bytes();
    let mut spread = nothing();
    let is_whole = spread_text(&mut spread, Case::Exact, text);
    let arn = Sought::spread(Case::Exact, text, &spread, is_whole);
    let asked = Asked {
        question,
        action,
        arn,
    };
    decide_asked(policy, &asked)
}

/// The same, with both texts as patterns are matched with them.
fn decide_asked(policy: &Policy, asked: &Asked<'_>) -> Decision
    ensures { result ≡ decision policy.now (plain_question asked.now.question.now) }
{
    let statements = policy.statements.as_slice();
    match first_denial(asked, statements) {
        Some(number) => Decision::Deny(number),
        None => match first_allowance(asked, statements) {
            Some(number) => Decision::Allow(number),
            None => Decision::Silent,
        },
    }
}

/// The number of the first statement that allows everybody something without a condition. It takes no memory.
#[tactic(auto, using(crate::proofs::DecisionLemmas::number_here, crate::proofs::DecisionLemmas::number_later, crate::proofs::DecisionLemmas::number_none))]
pub fn is_public(policy: &Policy) -> Option<u32>
    ensures { result ≡ public_number policy.now }
{
    for (place, statement) in policy.statements.as_slice().iter().enumerate() {
        if is_open(statement) {
            return Some(counted(place));
        }
    }
    None
}
