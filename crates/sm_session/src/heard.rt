//! What is heard of a message.
use sm_model::{Person, Request, Why};

/// Who asks for what, or why the message is refused before anything is asked of the account.
#[derive(Drop)]
pub enum Heard {
    Ask(Person, Request),
    Refused(Why),
    Memory,
}
