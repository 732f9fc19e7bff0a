//! What each message of a drill asks for.
ghost use Rattle.std.specs.Prelude.{◌≡◌, ◌<◌};
ghost use Rattle.sm_drill.specs.Steps.{step_of};

/// How many messages a drill has.
pub const MESSAGES: u64 = 10_000;

/// How many secrets a drill makes, a message each.
pub const SECRETS: u64 = 2_000;

/// The first message that asks for a value.
pub const FIRST_READ: u64 = 8_000;

/// The numbers as they are stated, so that the constants stay them.
pub fn numbers_of_a_drill_are_as_stated()
    ensures messages { MESSAGES ≡ 10000 }
    ensures secrets { SECRETS ≡ 2000 }
    ensures first_read { FIRST_READ ≡ 8000 }
{}

/// What a message asks for: that the secret of this number is made, given a value, or shown.
#[derive(Clone, Copy, Debug, PartialEq, Eq)]
pub enum Step {
    Create(u64),
    Put(u64),
    Get(u64),
}

/// What the message of this number asks for, counted from 0, by its word.
pub(crate) fn step_of(index: u64, word: u32) -> Step
    requires { index < MESSAGES }
    ensures { result ≡ step_of index word }
{
    let word = u64::from(word);
    if index < SECRETS {
        Step::Create(index)
    } else if index < FIRST_READ {
        Step::Put(2 * ((index - SECRETS) % (SECRETS / 2)) + word % 2)
    } else {
        Step::Get(word % SECRETS)
    }
}
