//! Judging the requests that give a secret a resource policy, take it away, show it and look for what is wrong with
//! one, one file an operation.
#![tactic(auto)]

pub mod delete_resource_policy;
pub mod get_resource_policy;
mod kept;
pub mod put_resource_policy;
pub mod validate_resource_policy;
