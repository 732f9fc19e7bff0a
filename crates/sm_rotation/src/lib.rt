//! The rotation of one secret (AWS Secrets Manager User Guide, "Rotation by Lambda function"): its start, its steps by
//! what a rotator answered, and whether it is due.
#![tactic(auto)]

pub mod due;
pub mod finishing;
pub mod starting;
pub mod stepping;

pub use due::is_due;
pub use sm_versions::settle;
pub use starting::{Began, begin};
pub use stepping::{Applied, apply};
