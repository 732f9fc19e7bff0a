//! Signatures of AWS Signature Version 4, in the profile of this server: whether a message is signed by a secret, and
//! the field that signs one.
#![tactic(auto)]

mod authorization;
mod canonical;
mod checking;
mod digits;
mod fields;
pub mod laws;
pub mod mac;
mod moment;
mod names;
pub mod part;
pub mod scope;
mod signature;
mod signing;
mod texts;

pub use checking::check;
pub use mac::hmac;
pub use part::{Checked, Part, SignRefused};
pub use scope::Scope;
pub use signing::sign;
