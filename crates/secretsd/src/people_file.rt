//! The file that says who may ask.
use crate::people_line::reason_of;
use sm_command_line::Settings;
use sm_principal::{People, PeopleRefused};
use sm_server::Status;
use std::fs;
use std::io::ErrorKind;
use std::os::unix::fs::PermissionsExt;

/// The bits of a file's mode by which others than its owner may read it.
const READ_BY_OTHERS: u32 = 0o044;

/// The text of the file that says who may ask, where one is named, and else none. It is tried before a folder is
/// opened.
pub fn people_text(rt: &HostRuntime, settings: &Settings) -> Result<Vec<u8>, Status> {
    let Some(file) = &settings.people else {
        return Ok(Vec::new(rt.alloc()));
    };
    let file = file.as_str();
    match fs::read(rt, file) {
        Ok(text) => match say_people(rt, file, text.as_slice()) {
            Ok(()) => Ok(text),
            Err(status) => Err(status),
        },
        Err(error) if error.kind() == ErrorKind::OutOfMemory => Err(Status::Memory),
        Err(error) => {
            let _ = eprintln!(rt; "secretsd: the people of {file} can't be read: {error}");
            Err(Status::People(0))
        }
    }
}

/// Says what is wrong with a people text, or with the people that it names.
fn say_people(rt: &HostRuntime, file: &str, text: &[u8]) -> Result<(), Status> {
    match People::read(rt.alloc(), text) {
        Ok(people) => {
            say_who(rt, file, &people);
            Ok(())
        }
        Err(PeopleRefused::BadLine(line)) => {
            let reason = reason_of(text, line);
            let _ = eprintln!(rt; "secretsd: line {line} of {file} is no person: {reason}");
            Err(Status::People(line))
        }
        Err(PeopleRefused::Memory) => Err(Status::Memory),
    }
}

/// Says that everybody or nobody may ask, or that others may read what the people sign by. No secret is said.
fn say_who(rt: &HostRuntime, file: &str, people: &People) {
    match people {
        People::Everybody => {
            let _ = eprintln!(rt;
                "secretsd: {file} is empty, and so everybody may do all, as without --people"
            );
        }
        People::Listed(known) => {
            if known.as_slice().is_empty() {
                let _ = eprintln!(rt; "secretsd: {file} names nobody, and so nobody may ask");
            } else if people.has_secrets() && others_may_read(rt, file) {
                let _ = eprintln!(rt;
                    "secretsd: {file} has secrets, and others than its owner may read it (chmod 600 ends that)"
                );
            }
        }
    }
}

/// Whether others than its owner may read a file. Where that isn't known it is not said.
fn others_may_read(rt: &HostRuntime, file: &str) -> bool {
    match fs::metadata(rt, file) {
        Ok(metadata) => metadata.permissions().mode() & READ_BY_OTHERS != 0,
        Err(_) => false,
    }
}
