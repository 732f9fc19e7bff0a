//! Rotators: what is asked at each step of a rotation, and what may be answered.
#![tactic(auto)]

pub mod absent;
mod floats;
mod line;
pub mod link;
pub mod local;
pub mod rotator;
pub mod script;
pub mod telling;
pub mod told;
pub mod verdict;
pub mod work;

pub use absent::NoRotator;
pub use link::{LinkRotator, STEP_SECONDS};
pub use local::LocalRotator;
pub use rotator::{Asked, Rotator};
pub use script::ScriptRotator;
pub use telling::TellingRotator;
pub use told::Told;
pub use verdict::Verdict;
pub use work::Work;
