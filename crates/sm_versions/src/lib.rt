//! The versions of one secret and the labels on them (AWS Secrets Manager User Guide, "Secret versions"): new
//! values, moves of labels, look-ups, the settling of a rotation under way, and the dropping of old versions.
#![tactic(auto)]

pub mod due;
pub mod label_index;
pub mod labels;
pub mod lookup;
pub mod moving;
pub mod placing;
pub mod pruning;
pub mod regions;
pub mod settling;
pub mod values;
pub mod versions;
pub mod when;

pub use due::{due_date, is_due_for_some, is_reached};
pub use label_index::LabelIndex;
pub use lookup::{Found, find};
pub use moving::{Moved, move_label};
pub use pruning::prune;
pub use settling::{is_live, settle};
pub use values::{PutDone, put};
pub use versions::same;
pub use when::When;
