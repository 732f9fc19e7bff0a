//! The steps of rotations that may be taken up: who has claimed one, which is ready, what there is to do, which
//! rotations are due, and which verdicts still hold.
#![tactic(auto)]

pub mod claims;
pub mod due;
pub mod fresh;
pub mod live_claims;
pub mod ready;
pub mod works;

pub use claims::{CLAIM_SECONDS, Claim};
pub use due::{first_due, has_due};
pub use fresh::{is_fresh, step_of};
pub use live_claims::add_claim;
pub use ready::ready_work;
