//! What a message's body asks for (AWS JSON 1.1): the operation that a target names, and its request from the JSON
//! object of the body, by one table of members for each operation.
#![tactic(auto)]

mod body;
mod fields;
mod kinds;
pub mod laws;
pub mod name;
mod number;
pub mod operation;
mod owned;
mod passwords;
mod policies;
mod reading;
mod regions;
pub mod requests;
mod rotation;
mod secrets;
mod values;

pub use json::Scratch;
pub use name::MemberName;
pub use operation::Operation;
pub use requests::{ReadRequest, request, request_of, request_of_with, request_with};
