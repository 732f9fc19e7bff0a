//! The forms of requests: the tests of their members, and the joint tests of several members, which need no rows. Each
//! operation has a file of its name.
#![tactic(auto)]

pub mod batch_get_secret_value;
pub mod create_secret;
pub mod delete_secret;
pub mod get_random_password;
pub mod get_secret_value;
mod key_order;
pub mod laws;
pub mod list_secret_version_ids;
pub mod list_secrets;
mod members;
pub mod of_secret;
pub mod paging;
mod policies;
pub mod put_resource_policy;
pub mod put_secret_value;
pub mod regions_of_secret;
pub mod request_forms;
pub mod rotate_secret;
pub mod tag_resource;
mod tags;
pub mod untag_resource;
pub mod update_secret;
pub mod update_secret_version_stage;
pub mod validate_resource_policy;

pub use request_forms::forms;
