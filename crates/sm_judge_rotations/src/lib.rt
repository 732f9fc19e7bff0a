//! Judging the requests that turn rotation on and off, and the starts and the reported steps of rotations, one file for
//! each.
#![tactic(auto)]

pub mod begun;
pub mod cancel_rotate_secret;
pub mod reported;
pub mod rotate_secret;
