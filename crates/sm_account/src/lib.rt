//! The account: the secrets, their entries on the disk and the history of both in one value, whose type keeps what
//! holds of them.
#![tactic(auto)]

pub mod account;
mod account_state;
mod considering;
mod counting;
mod due;
mod entering;
mod growing;
pub mod handled;
mod handling;
pub mod laws;
mod making;
pub mod next_work;
mod opening;
pub mod report;
pub mod start_due;
pub mod storied;
pub mod tested;
mod told;
mod writing;

pub use account::Account;
pub use handled::Handled;
pub use next_work::NextWork;
pub use report::Reported;
pub use sm_journal::{Damage, OpenRefused};
pub use start_due::StartedDue;
pub use storied::Opened;
pub use tested::TestedRequest;
