//! What the words of a run ask for.
ghost use Rattle.std.specs.Prelude.{◌≡◌, map, string_bytes};
ghost use Rattle.sm_principal.specs.Callers.{people_of};
ghost use Rattle.sm_command_line.specs.Reading.{settings_of};
ghost use Rattle.sm_server.specs.Asked.{FollowsPeople, FollowsWords, end_of_people, role_of_mode};

use crate::status::Status;
use sm_command_line::{Mode, Settings, WordsRefused, read_words};
use sm_model::Text;
use sm_principal::{People, PeopleRefused};
use std::alloc::Global;

/// What a run over one stream does with the account of its disk.
#[derive(Clone, Copy, Debug, PartialEq, Eq)]
pub enum RunTask {
    /// It answers the messages of the source.
    Answer,
    /// It writes a summary of what the disk holds.
    Summarize,
    /// It answers the messages that this number makes.
    Practise(u64),
    /// It writes what brings a replica from this position to the account's end.
    Ship(u64),
}

/// What a run over one stream is.
#[derive(Drop)]
pub enum Role {
    /// It opens the account of its disk, and does this with it.
    Primary(RunTask),
    /// It follows a primary, as the replica in this region.
    Replica(Text),
}

/// What a run over one stream is by its words, or how it ends that cannot follow them.
pub fn role_of_words(alloc: Global, words: &[String]) -> Result<Role, Status>
    ensures { FollowsWords result (settings_of (map string_bytes words.now)) }
{
    match read_words(alloc, words) {
        Ok(settings) => role_of_settings(settings),
        Err(WordsRefused::Refused) => Err(Status::Words),
        Err(WordsRefused::Memory) => Err(Status::Memory),
    }
}

/// The same of settings.
fn role_of_settings(settings: Settings) -> Result<Role, Status>
    ensures { result ≡ role_of_mode settings.mode settings.number settings.region }
{
    let Settings {
        mode,
        number,
        region,
        ..
    } = settings;
    role_of_mode(mode, number, region)
}

/// What a run over one stream is in a mode, or how it ends that cannot follow it: serving is another top call's, and so
/// is reading from a server. Without a number a drill is that of 0, and what is shipped begins at position 0.
pub fn role_of_mode(mode: Mode, number: Option<u64>, region: Text) -> Result<Role, Status>
    ensures { result ≡ role_of_mode mode number region }
{
    match mode {
        Mode::Exec => Ok(Role::Primary(RunTask::Answer)),
        Mode::Serve => Err(Status::Words),
        Mode::Check => Ok(Role::Primary(RunTask::Summarize)),
        Mode::Drill => Ok(Role::Primary(RunTask::Practise(number.unwrap_or(0)))),
        Mode::Agent => Err(Status::Words),
        Mode::Ship => Ok(Role::Primary(RunTask::Ship(number.unwrap_or(0)))),
        Mode::Follow => Ok(Role::Replica(region)),
    }
}

/// Who may ask by a text, or how a run ends whose text of the people is refused.
pub fn people_of(alloc: Global, text: &[u8]) -> Result<People, Status>
    ensures { FollowsPeople result (people_of text.now) }
{
    match People::read(alloc, text) {
        Ok(people) => Ok(people),
        Err(refused) => Err(end_of_people(refused)),
    }
}

/// How a run ends whose text of the people is refused.
fn end_of_people(refused: PeopleRefused) -> Status
    ensures { result ≡ end_of_people refused }
{
    match refused {
        PeopleRefused::BadLine(line) => Status::People(line),
        PeopleRefused::Memory => Status::Memory,
    }
}
