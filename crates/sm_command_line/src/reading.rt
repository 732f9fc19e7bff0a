//! The reading of words.
ghost use Rattle.std.specs.Prelude.{◌≡◌, IfOk, option_map, map, string_bytes, unwrap_or};
ghost use Rattle.clap.specs.Words.{FailsBy, first_of, found_of, rows_of};
ghost use Rattle.sm_base.specs.Outcomes.{OrMemory};
ghost use Rattle.sm_command_line.specs.Command.{faults, found};
ghost use Rattle.sm_command_line.specs.Reading.{IsInBounds, is_set, mode_of, number_of, settings_in, settings_of, told};

use crate::arguments::{LISTEN, REGION, ROTATOR};
use crate::command::command;
use crate::settings::{Mode, Settings, WordsRefused};
use clap::error::ErrorKind;
use clap::{ArgMatches, Error};
use sm_base::{NoMemory, Text};
use std::alloc::Global;

/// What the words ask for. They stand without the program's name. Words that ask for help or the version are refused
/// too: `refusal_of` has the text to show.
pub fn read_words(alloc: Global, words: &[String]) -> Result<Settings, WordsRefused>
    ensures read { OrMemory (told result) (settings_of (map string_bytes words.now)) }
    ensures bounds { IfOk result IsInBounds }
{
    match parse(alloc, words) {
        Ok(matches) => Ok(settings(alloc, &matches)?),
        Err(error) => match error.kind() {
            ErrorKind::OutOfMemory => Err(WordsRefused::Memory),
            _ => Err(WordsRefused::Refused),
        },
    }
}

/// What clap makes of the words.
pub fn parse<'a>(alloc: Global, words: &'a [String]) -> Result<ArgMatches<'a>, Error>
    ensures faults { FailsBy (faults (map string_bytes words.now)) result }
    ensures found { IfOk result (λ m. rows_of (found_of m) ≡ found (map string_bytes words.now)) }
{
    command(alloc)?.try_get_matches_from(words)
}

/// The settings by what was found.
fn settings(alloc: Global, matches: &ArgMatches<'_>) -> Result<Settings, NoMemory>
    ensures { IfOk result (λ settings. settings ≡ settings_in (rows_of (found_of matches.now))) }
{
    Ok(Settings {
        mode: mode_of(value_of(matches, "mode")),
        folder: text_of(alloc, matches, "data")?,
        people: text_of(alloc, matches, "people")?,
        listen: text_or(alloc, matches, "listen", LISTEN)?,
        rotator: text_or(alloc, matches, "rotator", ROTATOR)?,
        connections: count_of(matches, "connections").unwrap_or(4),
        workers: count_of(matches, "workers").unwrap_or(2),
        number: number_of(matches, "number"),
        region: text_or(alloc, matches, "region", REGION)?,
        log: is_set(value_of(matches, "log")),
    })
}

/// The mode of a name; exec where none is given.
fn mode_of(name: Option<&str>) -> Mode
    ensures { result ≡ mode_of (option_map (λ name. name.now) name.entry) }
{
    match name {
        Some("serve") => Mode::Serve,
        Some("check") => Mode::Check,
        Some("drill") => Mode::Drill,
        Some("agent") => Mode::Agent,
        Some("ship") => Mode::Ship,
        Some("follow") => Mode::Follow,
        _ => Mode::Exec,
    }
}

/// Whether the value of a flag is that it stands among the words.
fn is_set(value: Option<&str>) -> bool
    ensures { result ≡ is_set (option_map (λ value. value.now) value.entry) }
{
    match value {
        Some("true") => true,
        _ => false,
    }
}

/// The value of an option.
fn value_of<'a>(matches: &ArgMatches<'a>, name: &str) -> Option<&'a str>
    ensures { option_map (λ value. value.now) result ≡ first_of name.now (rows_of (found_of matches.now)) }
{
    matches.get_str(name)
}

/// The value of an option as a text of its own.
fn text_of(alloc: Global, matches: &ArgMatches<'_>, name: &str) -> Result<Option<Text>, NoMemory>
    ensures { IfOk result (λ text. text ≡ first_of name.now (rows_of (found_of matches.now))) }
{
    match value_of(matches, name) {
        Some(text) => Ok(Some(Text::from_str(alloc, text)?)),
        None => Ok(None),
    }
}

/// The value of an option as a text of its own, or the one that stands for it.
fn text_or(
    alloc: Global,
    matches: &ArgMatches<'_>,
    name: &str,
    default: &'static str,
) -> Result<Text, NoMemory>
    ensures { IfOk result (λ text. text ≡ unwrap_or (first_of name.now (rows_of (found_of matches.now))) default.now) }
{
    match value_of(matches, name) {
        Some(text) => Text::from_str(alloc, text),
        None => Ok(Text::fixed(default)),
    }
}

/// The number of an option that counts.
fn count_of(matches: &ArgMatches<'_>, name: &str) -> Option<u32>
    ensures { result ≡ number_of 32 name.now (rows_of (found_of matches.now)) }
{
    matches.get_one::<u32>(name)
}

/// The number of an option.
fn number_of(matches: &ArgMatches<'_>, name: &str) -> Option<u64>
    ensures { result ≡ number_of 64 name.now (rows_of (found_of matches.now)) }
{
    matches.get_one::<u64>(name)
}
