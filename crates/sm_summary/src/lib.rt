//! What mode check says of an account: how much it keeps, and a line for each secret.
#![tactic(auto)]

mod line;
pub mod walk;

pub use walk::{summary, totals};
