//! The public calls of judging: the forms of a request, whether its person may make it, whether it is accepted, with
//! which reply and change, and the same for an entry that is made again. They list the operations; each operation has
//! its own files below.
#![tactic(auto)]

pub mod histories;
pub mod judging;
pub mod replaying;

pub use judging::judge;
pub use replaying::{Replayed, again};
pub use sm_access::{Admitted, admit};
pub use sm_forms::forms;
pub use sm_judge_common::Judged;
