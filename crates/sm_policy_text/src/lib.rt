//! What text is a resource policy, and policies that are kept with their texts (IAM User Guide, "IAM JSON policy
//! elements reference"; AWS Secrets Manager User Guide, "Resource-based policies").
//!
//! Contracts see a `KeptPolicy` as the list of its text's bytes.
#![tactic(auto)]

mod condition;
pub mod document;
pub mod kept;
pub mod kinds;
pub mod member;
pub mod policy;
pub mod read;

pub use document::PolicyRefused;
pub use kept::KeptPolicy;
pub use policy::{
    Block, Condition, Effect, Key, Operator, Pattern, Policy, Principal, Principals, Statement,
    Test,
};
