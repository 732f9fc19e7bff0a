//! Whether a person may make a request: what the request asks of the policy of the secret that it names, and what the
//! policy says to it.
#![tactic(auto)]

mod access_requests;
pub mod admission;
pub mod laws;

pub use admission::{Admitted, admit, admit_get};
