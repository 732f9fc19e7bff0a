//! Passwords of random bytes (AWS Secrets Manager API Reference, GetRandomPassword): a password is a function of what
//! is asked and of the bytes that were drawn.
#![tactic(auto)]

mod alphabet;
mod ask;
pub mod class;
pub mod drawing;

pub use ask::{Asked, PasswordAsk, PasswordRefused};
pub use class::class_count;
pub use drawing::password;
