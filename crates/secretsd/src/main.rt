//! A server with the behaviour of AWS Secrets Manager on one's own machine.
//!
//! `secretsd --mode serve --data FOLDER` serves at an address. `secretsd --data FOLDER < messages` answers the HTTP
//! messages of standard input on standard output and ends. `secretsd --mode check --data FOLDER` says what the folder
//! holds. `secretsd --mode agent` reads secrets from a server, and keeps each for a while. `secretsd --mode ship --data
//! FOLDER | secretsd --mode follow` keeps a replica of a folder.
//! `secretsd --help` says which words it takes.
#![tactic(auto)]

mod accepting;
mod client;
mod connections;
mod crew;
mod ending;
mod entropy;
mod event_loop;
mod folder_disk;
mod loop_edge;
mod naming;
mod opening;
mod orders;
mod peer;
mod peer_outcome;
mod people_file;
mod people_line;
mod probing;
mod reader;
mod reports;
mod request_line;
mod request_log;
mod rotators;
mod serving;
mod side;
mod stage;
mod starting;
mod unsent;
mod upstreams;
mod visit;
mod welcome;

ghost use Rattle.sm_command_line.specs.Reading.{IsInBounds};

use crate::ending::{Unit, say_end, unit_of};
use crate::entropy::SaidRandom;
use crate::folder_disk::FolderDisk;
use crate::opening::Opening;
use crate::orders::{Orders, empty_disk};
use crate::people_file::people_text;
use crate::reader::read_for_others;
use crate::reports::Reports;
use crate::rotators::{Linked, Local, MakeRotator};
use crate::serving::serve;
use crate::starting::say_start;
use sm_command_line::{Mode, Settings, WordsRefused, read_words, refusal_of};
use sm_disk::Disk;
use sm_io::{
    Clock, CountWords, FixedClock, StreamSink, StreamSource, SystemClock, SystemRandom, Words,
};
use sm_model::{Fails, Moment, NoMemory};
use sm_rotator::Rotator;
use sm_server::{Status, run_once};
use sm_write_buffer::Gathered;
use std::alloc::Global;
use std::env::Env;
use std::io::ErrorKind;
use std::process::ExitCode;
use std::sync::Wait;
use std::thread::Threads;
use std::{env, io};

/// What the clock reads where a number is given.
const FIXED_MOMENT: Moment = Moment(1_700_000_000);

fn main(rt: HostRuntime) -> ExitCode {
    let (status, unit) = match words(&rt, rt.alloc()) {
        Ok(words) => follow(&rt, &rt, words.as_slice()),
        Err(error) if error.kind() == ErrorKind::OutOfMemory => (Status::Memory, Unit::Message),
        Err(_) => {
            let _ = eprintln!(rt; "secretsd: a word of the command line is not UTF-8");
            (Status::Words, Unit::Message)
        }
    };
    say_end(&rt, status, unit);
    ExitCode::from(status.code())
}

/// The words behind the program's name.
fn words(rt: &(impl Env + AllocGlobal), alloc: Global) -> io::Result<Vec<String>> {
    let mut words = Vec::new(alloc);
    for word in env::args(rt)?.skip(1) {
        words.push(word)?;
    }
    Ok(words)
}

/// Does what the words ask for, and gives what it read. No folder is opened for words that are not followed.
fn follow<H: Threads + Wait + Sync>(
    rt: &HostRuntime,
    threads: &H,
    words: &[String],
) -> (Status, Unit) {
    match read_words(rt.alloc(), words) {
        Ok(settings) => (
            follow_mode(rt, threads, words, &settings),
            unit_of(settings.mode),
        ),
        Err(WordsRefused::Refused) => (say_refusal(rt, words), Unit::Message),
        Err(WordsRefused::Memory) => (Status::Memory, Unit::Message),
    }
}

/// Does what is to be done in the mode of the settings.
fn follow_mode<H: Threads + Wait + Sync>(
    rt: &HostRuntime,
    threads: &H,
    words: &[String],
    settings: &Settings,
) -> Status
    requires { IsInBounds settings.now }
{
    match settings.mode {
        Mode::Exec => follow_settings(rt, threads, words, settings),
        Mode::Serve => follow_settings(rt, threads, words, settings),
        Mode::Check => follow_settings(rt, threads, words, settings),
        Mode::Drill => follow_settings(rt, threads, words, settings),
        Mode::Agent => {
            say_start(rt, settings);
            read_for_others(rt, threads, words, settings)
        }
        Mode::Ship => follow_settings(rt, threads, words, settings),
        Mode::Follow => follow_settings(rt, threads, words, settings),
    }
}

/// Reads the text of the people, and serves, or runs over the one stream.
fn follow_settings<H: Threads + Wait + Sync>(
    rt: &HostRuntime,
    threads: &H,
    words: &[String],
    settings: &Settings,
) -> Status
    requires { IsInBounds settings.now }
{
    match people_text(rt, settings) {
        Ok(people) => {
            let reports = Reports::new(rt);
            let orders = Orders {
                words,
                settings,
                people: people.as_slice(),
                reports: &reports,
            };
            say_start(rt, settings);
            if settings.mode == Mode::Serve {
                serve(rt, threads, &orders)
            } else {
                run(rt, &orders)
            }
        }
        Err(status) => status,
    }
}

/// Prints help or the version where the words ask for it, and else what is wrong with them.
fn say_refusal(rt: &HostRuntime, words: &[String]) -> Status {
    match refusal_of(rt.alloc(), words) {
        Ok(Some(refusal)) if refusal.is_asked => show(rt, refusal.text.as_str()),
        Ok(Some(refusal)) => {
            let text = refusal.text.as_str();
            let _ = eprint!(rt; "{text}");
            Status::Words
        }
        Ok(None) => Status::Words,
        Err(NoMemory) => Status::Memory,
    }
}

/// Prints a text to standard output.
fn show(rt: &HostRuntime, text: &str) -> Status {
    match print!(rt; "{text}") {
        Ok(()) => Status::Done,
        Err(_) => Status::SinkFault(0),
    }
}

/// Runs over the folder that is named, and else over a disk in memory, which is let go at the end.
fn run(rt: &HostRuntime, orders: &Orders) -> Status {
    match &orders.settings.folder {
        Some(folder) => run_over_folder(rt, orders, folder.as_str()),
        None => match empty_disk(rt.alloc()) {
            Ok(disk) => run_over(rt, orders, disk),
            Err(NoMemory) => Status::Memory,
        },
    }
}

/// Runs over a folder.
fn run_over_folder(rt: &HostRuntime, orders: &Orders, folder: &str) -> Status {
    let opening = Opening::new(rt);
    match FolderDisk::open(rt, folder, orders.reports, &opening) {
        Ok(disk) => run_over(rt, orders, Gathered::new(rt.alloc(), disk)),
        Err(refused) => {
            let _ = eprintln!(rt; "secretsd: the folder {folder} can't be opened: {refused}");
            Status::OpenFault
        }
    }
}

/// The number that a run without chance is made from. A run that ships has its position in its place, and a replica
/// lives by the system's clock.
fn fixed_number(settings: &Settings) -> Option<u64> {
    match settings.mode {
        Mode::Ship => None,
        Mode::Follow => None,
        _ => settings.number,
    }
}

/// Runs over a disk: with a fixed clock and bytes that count up where a number is given, and else with the system's.
fn run_over<D: Disk + Drop>(rt: &HostRuntime, orders: &Orders, disk: D) -> Status {
    let alloc = rt.alloc();
    match fixed_number(orders.settings) {
        Some(number) => {
            let mut clock = FixedClock::new(FIXED_MOMENT);
            let first = (number % 256) as u8;
            let mut random = CountWords::new(alloc, first, Fails::never(alloc));
            run_with(rt, orders, disk, &mut clock, &mut random)
        }
        None => {
            let mut clock = SystemClock::new(rt);
            let reports = orders.reports;
            let mut random = SystemRandom::new(alloc, SaidRandom { rt, reports });
            run_with(rt, orders, disk, &mut clock, &mut random)
        }
    }
}

/// Runs with the local rotator, or with one behind an address.
fn run_with<D: Disk + Drop, C: Clock, W: Words>(
    rt: &HostRuntime,
    orders: &Orders,
    disk: D,
    clock: &mut C,
    random: &mut W,
) -> Status {
    let reports = orders.reports;
    let address = &orders.settings.rotator;
    if address.as_str() == "local" {
        let alloc = rt.alloc();
        run_made(rt, orders, disk, clock, random, &Local { alloc, reports })
    } else {
        let linked = Linked {
            rt,
            reports,
            address,
        };
        run_made(rt, orders, disk, clock, random, &linked)
    }
}

/// Runs with a rotator of this kind.
fn run_made<D: Disk + Drop, C: Clock, W: Words, M: MakeRotator>(
    rt: &HostRuntime,
    orders: &Orders,
    disk: D,
    clock: &mut C,
    random: &mut W,
    rotators: &M,
) -> Status {
    match rotators.make() {
        Ok(rotator) => {
            let mut rotator = rotator;
            run_stream(rt, orders, disk, clock, random, &mut rotator)
        }
        Err(NoMemory) => Status::Memory,
    }
}

/// Answers the messages of standard input on standard output, or says there what the disk holds, or writes what a
/// replica is to take, or is one.
fn run_stream<D: Disk + Drop, C: Clock, W: Words, R: Rotator>(
    rt: &HostRuntime,
    orders: &Orders,
    disk: D,
    clock: &mut C,
    random: &mut W,
    rotator: &mut R,
) -> Status {
    let mut source = StreamSource::new(rt.stdin());
    let mut sink = StreamSink::new(rt.stdout());
    let (status, _disk) = run_once(
        rt.alloc(),
        orders.words,
        &mut source,
        &mut sink,
        disk,
        clock,
        random,
        orders.people,
        rotator,
    );
    status
}
