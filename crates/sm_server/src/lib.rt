//! The top calls of the server: from the bytes of requests to the bytes of replies.
#![tactic(auto)]

mod answering;
mod asked;
mod checking;
mod drilling;
mod following;
pub mod laws;
mod reader;
mod run;
pub mod serving;
mod shipping;
mod status;
mod turn;
mod witness;

pub use asked::{Role, RunTask, role_of_mode};
pub use reader::{agent_of_words, answer_connection, run_agent};
pub use run::run_once;
pub use serving::{Ran, RanBy, run_server};
pub use status::Status;
pub use witness::{Nobody, Witness};
