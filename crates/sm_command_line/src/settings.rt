//! What the words of a command line ask for.
use sm_base::{NoMemory, Text};
use std::alloc::AllocError;

/// What a run does.
#[derive(Clone, Copy, Debug, PartialEq, Eq)]
pub enum Mode {
    /// It answers the messages of standard input.
    Exec,
    /// It answers at an address.
    Serve,
    /// It says what a folder holds.
    Check,
    /// It makes messages of its own and answers them.
    Drill,
    /// It answers at an address what it reads from a server and keeps for a while.
    Agent,
    /// It writes what brings a replica to the state of a folder.
    Ship,
    /// It is a replica of what standard input tells.
    Follow,
}

/// What the words ask for.
#[derive(Drop)]
pub struct Settings {
    pub mode: Mode,
    /// The folder that keeps the secrets; without it they are kept in memory.
    pub folder: Option<Text>,
    /// The file that says who may call.
    pub people: Option<Text>,
    /// The address of the server: to listen on, or to ask.
    pub listen: Text,
    /// `local`, or the address of the one who makes new values.
    pub rotator: Text,
    /// How many workers serve connections.
    pub connections: u32,
    /// How many workers rotate secrets.
    pub workers: u32,
    /// The number that a run without chance is made from, and in mode ship the position of a replica.
    pub number: Option<u64>,
    /// The region of a replica.
    pub region: Text,
    /// Whether each request gets a line.
    pub log: bool,
}

/// Why words ask for nothing.
#[derive(Clone, Copy, Debug, PartialEq, Eq)]
pub enum WordsRefused {
    /// They are not words that the program takes, or they ask for help or the version.
    Refused,
    /// Memory was wanted and there was none.
    Memory,
}

impl From<NoMemory> for WordsRefused {
    ghost use Rattle.std.specs.Prelude.{◌≡◌};
    ghost use Rattle.sm_command_line.specs.declared.settings.WordsRefused.TheVariants.{Memory};

    ghost from_gives = { λ _ refused. refused ≡ Memory };

    fn from(_error: NoMemory) -> WordsRefused {
        WordsRefused::Memory
    }
}
