//! Whether entries may be counted from a base. What was read from a disk is a base of any rows and numbers at all; only
//! a sound one is rows that entries make. A test takes time that grows a little faster than the base, whatever it has.
#![tactic(auto)]

mod arn;
pub mod base;
mod differ;
mod fields;
mod job;
mod labels;
mod rising;
mod row;
mod seen;
mod tags;
mod versions;

pub use base::is_sound;
