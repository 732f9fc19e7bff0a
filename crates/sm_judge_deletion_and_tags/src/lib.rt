//! Judging the requests that delete, restore and tag secrets, one file an operation.
#![tactic(auto)]

pub mod delete_secret;
pub mod restore_secret;
pub mod tag_resource;
pub mod untag_resource;
