//! What the judging of all operations shares: what is answered, the secret that a request names, the members of a
//! request whose forms pass, the labels of a version and the replica regions of a secret as they are shown, and the
//! change of a row.
#![tactic(auto)]

pub mod judged;
pub mod labels_shown;
pub mod members;
pub mod regions;
pub mod row_change;
pub mod standing;

pub use judged::Judged;
