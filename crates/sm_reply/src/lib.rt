//! The bodies of replies: the JSON of accepted requests, and of refusals (AWS JSON 1.1; AWS Secrets Manager API
//! Reference, the response
//! syntax and the errors of each operation).
#![tactic(auto)]

mod batches;
mod bodies;
pub mod laws;
mod members;
mod out;
mod pages;
mod parts;
mod render;
mod secrets;
mod versions;

pub use bodies::{Refused, body, refusal};
