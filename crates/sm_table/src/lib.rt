//! All secrets of an account: found by name or ARN, and changed in two steps, the first of which takes all the
//! memory that the change needs.
#![tactic(auto)]

pub mod block;
pub mod dates;
pub mod deletion;
pub mod gathered;
pub mod indexed;
pub mod jobs;
pub mod kept;
pub mod name_map;
pub mod room;
pub mod row_map;
pub mod search;
pub mod signs;
pub mod table;

pub use block::Block;
pub use table::{Prepared, Table};
