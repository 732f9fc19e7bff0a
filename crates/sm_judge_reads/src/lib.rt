//! Judging the requests that give and show values and change nothing, one file an operation.
#![tactic(auto)]

pub mod describe_secret;
pub mod get_secret_value;
