//! What is said of words that are refused.
ghost use Rattle.std.specs.Prelude.{◌≡◌, IfOk, map, option_map, string_bytes};
ghost use Rattle.clap.specs.declared.error.kind.ErrorKind.{ErrorKind};
ghost use Rattle.sm_command_line.specs.Command.{faults};
ghost use Rattle.sm_command_line.specs.Refusals.{asked_by, is_asked};

use crate::reading::parse;
use clap::Error;
use clap::error::ErrorKind;
use sm_base::{NoMemory, Text};
use std::alloc::Global;

/// What is said of words that are refused.
#[derive(Drop)]
pub struct Refusal {
    /// clap's own text, with its line ends.
    pub text: Text,
    /// Whether the words ask for help or the version, so that the text is the answer and no complaint.
    pub is_asked: bool,
}

/// What is said of words that are refused, and nothing of words that are taken. A program prints the text of words
/// that ask for help or the version to its standard output and ends with 0, all else to its standard error.
#[tactic(auto, using(crate::proofs::RefusalLemmas::asked_by_kind))]
pub fn refusal_of(alloc: Global, words: &[String]) -> Result<Option<Refusal>, NoMemory>
    ensures { IfOk result (λ said. option_map (λ refusal. refusal.is_asked) said
        ≡ asked_by (faults (map string_bytes words.now))) }
{
    match parse(alloc, words) {
        Ok(_) => Ok(None),
        Err(error) => match error.kind() {
            ErrorKind::OutOfMemory => Err(NoMemory),
            kind => Ok(Some(Refusal {
                text: shown(alloc, &error)?,
                is_asked: is_asked(kind),
            })),
        },
    }
}

/// The text of an error.
fn shown(alloc: Global, error: &Error) -> Result<Text, NoMemory> {
    Ok(Text::new(format!(in alloc; "{error}")?))
}

/// Whether an error of this kind shows help or the version.
fn is_asked(kind: ErrorKind) -> bool
    ensures { result ≡ is_asked kind }
{
    matches!(kind, ErrorKind::DisplayHelp | ErrorKind::DisplayVersion)
}
