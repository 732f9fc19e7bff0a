//! A resource policy as plain data (IAM User Guide, "IAM JSON policy elements reference").
use sm_base::{List, Text};

/// Whether a statement allows or denies.
#[derive(Clone, Copy, Debug, PartialEq, Eq)]
pub enum Effect {
    Allow,
    Deny,
}

/// Whom a statement names: `*`, an account's 12 digits, or an ARN.
#[derive(Drop)]
pub struct Principal(pub Text);

/// Whom a statement is about.
#[derive(Drop)]
pub struct Principals(pub List<Principal>);

/// A text with `*` for any characters and `?` for one.
#[derive(Drop)]
pub struct Pattern(pub Text);

/// How a key's value is compared with those of a condition.
#[derive(Clone, Copy, Debug, PartialEq, Eq)]
pub enum Operator {
    StringEquals,
    StringNotEquals,
    StringLike,
}

/// What of a question a condition is about.
#[derive(Drop)]
pub enum Key {
    VersionStage,
    VersionId,
    Name,
    SecretId,
    /// The secret's tag of this key.
    ResourceTag(Text),
}

/// A key and the values that it is compared with.
#[derive(Drop)]
pub struct Test {
    pub key: Key,
    pub values: List<Text>,
}

/// The tests of one operator.
#[derive(Drop)]
pub struct Block {
    pub operator: Operator,
    pub tests: List<Test>,
}

/// All that has to hold besides principal, action and resource.
#[derive(Drop)]
pub struct Condition(pub List<Block>);

#[derive(Drop)]
pub struct Statement {
    pub effect: Effect,
    pub principals: Principals,
    pub actions: List<Pattern>,
    pub resources: List<Pattern>,
    pub condition: Condition,
}

/// A resource policy.
#[derive(Drop)]
pub struct Policy {
    pub statements: List<Statement>,
}
