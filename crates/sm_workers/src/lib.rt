//! What runs the workers of a server in threads over one account behind a lock: connection workers, whose connections
//! are served, and rotation workers, which take rotation turns.
#![tactic(auto)]

mod connection_workers;
mod jobs;
mod passes;
mod rotation_workers;
pub mod running;
pub mod worker;
mod working;

pub use running::{any_failed, run_at, run_workers};
pub use worker::{ConnEnd, Task, Worker, WorkerBy};
