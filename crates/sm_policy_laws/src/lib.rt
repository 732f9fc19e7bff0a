//! Laws of what text is a policy, in JSON's words (IAM User Guide, "Grammar of the IAM JSON policy language").
#![tactic(auto)]

pub mod laws;
