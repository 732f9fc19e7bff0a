//! Judging the requests that make and change values, one file an operation.
#![tactic(auto)]

pub mod create_secret;
pub mod new_value;
pub mod put_secret_value;
pub mod update_secret;
