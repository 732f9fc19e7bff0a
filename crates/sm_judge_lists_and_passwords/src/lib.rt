//! Judging the requests that list secrets and versions, that ask for several values, and that ask for a password, one
//! file an operation.
#![tactic(auto)]

pub mod batch_get_secret_value;
pub mod following;
pub mod get_random_password;
pub mod list_secret_version_ids;
pub mod list_secrets;
mod pages;
