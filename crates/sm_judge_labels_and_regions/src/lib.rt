//! Judging the requests that move labels and those on the replica regions of secrets, one file an operation.
#![tactic(auto)]

mod regional;
pub mod remove_regions_from_replication;
pub mod replicate_secret_to_regions;
pub mod stop_replication_to_replica;
pub mod update_secret_version_stage;
