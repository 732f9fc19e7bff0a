//! A replica of a primary over one stream and a disk: the frames of the primary's history are taken, each answered by
//! the replica's position, and messages are answered. The message that stops the replication promotes the replica: what
//! it holds is put on the disk as an account's base, and then the reply is written.
#![tactic(auto)]

mod answering;
pub mod end;
pub mod follower;
mod following;
pub mod laws;
pub mod output;
pub mod promoting;
mod turns;
mod writing;

pub use end::End;
pub use following::{FRAME_LIMIT, follow};
pub use laws::{a_replica_is_a_prefix, a_run_leaves_a_prefix};
