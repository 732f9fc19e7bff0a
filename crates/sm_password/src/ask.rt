//! What is asked of a password, and why there is none.
use sm_base::{NoMemory, Text};

/// What is asked of a password.
#[derive(Drop)]
pub struct PasswordAsk {
    /// How many characters it has.
    pub length: u32,
    /// The characters that it doesn't have.
    pub exclude: Text,
    /// Which classes of characters it may have.
    pub lower: bool,
    pub upper: bool,
    pub digits: bool,
    pub punctuation: bool,
    pub space: bool,
    /// Whether it has a character of each of them.
    pub each: bool,
}

/// Which classes of characters are asked for.
#[derive(Clone, Copy)]
pub struct Asked {
    pub lower: bool,
    pub upper: bool,
    pub digits: bool,
    pub punctuation: bool,
    pub space: bool,
}

/// Why there is no password, in the order in which it is looked at.
#[derive(Clone, Copy, Debug, PartialEq, Eq)]
pub enum PasswordRefused {
    /// The length is not from 1 to 4,096.
    Length,
    /// No character is left.
    Empty,
    /// The password is shorter than the number of classes of which it has to have one.
    TooShort,
    Memory,
}

impl From<NoMemory> for PasswordRefused {
    ghost use Rattle.std.specs.Prelude.{◌≡◌};
    ghost use Rattle.sm_password.specs.declared.ask.PasswordRefused.TheVariants.{Memory};

    ghost from_gives = { λ _ refused. refused ≡ Memory };

    fn from(_error: NoMemory) -> PasswordRefused {
        PasswordRefused::Memory
    }
}
