//! What a resource policy says to a question (IAM User Guide, "IAM JSON policy elements reference"; AWS Secrets Manager
//! User Guide, "Resource-based policies").
#![tactic(auto)]

pub mod laws;
pub mod pattern;
mod place_set;
pub mod question;
pub mod spread;

pub use pattern::{Case, is_match};
pub use question::{Decision, Question, decide, is_public};
