//! Each call of the disk failing in turn.
use crate::runs::{entries, run};
use sm_base::NoMemory;
use sm_disk::MemoryDisk;
use sm_memory_fixtures::disks::disk_of;
use sm_memory_fixtures::exchanges::{
    APP_FAULT, APP_MADE, B_FAULT, B_MADE, BAD, Exchange, FIRST_VALUE, GET, GET_APP, NOT_FOUND, OK,
    PUT, PUT_B, SECOND_VALUE, spoken,
};
use sm_memory_fixtures::failing::FILLS;
use sm_memory_fixtures::fails::fails_of;
use sm_model::Fails;
use sm_server::Status;
use std::alloc::Global;
use std::test::Fail;

/// The call of the disk that syncs the gate of the second entry: looking for a root takes two calls, opening a new
/// journal six, and each entry six more.
const SYNC_OF_THE_PUT: u64 = 20;

/// More calls than two runs over a disk take.
const CALLS: u64 = 60;

/// What is known of a disk: how many entries were acknowledged, and whether the next one may be there too.
#[derive(Clone, Copy)]
struct Known {
    entries: u64,
    unsure: bool,
}

/// A put of a secret that isn't there.
const NOT_THERE: Exchange = (PUT, PUT_B, BAD, NOT_FOUND);

/// Reads of the secret: both of its values, and where it isn't there.
const FIRST: Exchange = (GET, GET_APP, OK, FIRST_VALUE);

const SECOND: Exchange = (GET, GET_APP, OK, SECOND_VALUE);

const NONE: Exchange = (GET, GET_APP, BAD, NOT_FOUND);

/// How a run may go: it makes the first entry, and then the second one twice, with a read between.
#[derive(Clone, Copy)]
enum Course {
    /// Each entry is made.
    Whole,
    /// The second entry fails, and is made when it is asked for again.
    Mended,
    /// The second entry fails both times.
    Unsure,
    /// The first entry fails, so that the second finds no secret.
    Empty,
}

const COURSES: [Course; 4] = [Course::Whole, Course::Mended, Course::Unsure, Course::Empty];

impl Course {
    /// The messages, and the replies to them.
    fn spoken(self, alloc: Global) -> Result<(Vec<u8>, Vec<u8>), NoMemory> {
        match self {
            Course::Whole => spoken(alloc, &[APP_MADE, B_MADE, SECOND, B_MADE]),
            Course::Mended => spoken(alloc, &[APP_MADE, B_FAULT, FIRST, B_MADE]),
            Course::Unsure => spoken(alloc, &[APP_MADE, B_FAULT, FIRST, B_FAULT]),
            Course::Empty => spoken(alloc, &[APP_FAULT, NOT_THERE, NONE, NOT_THERE]),
        }
    }

    /// What is known of the disk then.
    fn known(self) -> Known {
        let (entries, unsure) = match self {
            Course::Whole | Course::Mended => (2, false),
            Course::Unsure => (1, true),
            Course::Empty => (0, true),
        };
        Known { entries, unsure }
    }
}

/// What is known of a disk after a run: as before, where it was not opened, and else by its replies. Nothing, where
/// these are none that a run may give, or where an entry that was acknowledged is gone.
fn learned(
    alloc: Global,
    before: Known,
    status: Status,
    written: &[u8],
) -> Result<Option<Known>, Fail> {
    if status == Status::OpenFault && written.is_empty() {
        return Ok(Some(before));
    }
    for course in COURSES {
        let (_, output) = course.spoken(alloc)?;
        let known = course.known();
        if status == Status::Done
            && output.as_slice() == written
            && before.entries <= known.entries
        {
            return Ok(Some(known));
        }
    }
    Ok(None)
}

/// Whether a disk recovers what is known, and whether a run over it then has both entries.
fn is_kept(
    alloc: Global,
    input: &[u8],
    disk: &MemoryDisk,
    fill: u8,
    known: Known,
) -> Result<bool, Fail> {
    let found = entries(alloc, disk.crash(fill)?);
    let more = known.entries.saturating_add(1);
    let expected = found == Some(known.entries) || known.unsure && found == Some(more);
    let ran = run(alloc, input, None, disk.crash(fill)?)?;
    Ok(expected && ran.status == Status::Done && entries(alloc, ran.disk) == Some(2))
}

/// Whether two runs over a disk that fails so answer as they may, and each crash after each of them leaves what is
/// known.
fn goes_well(alloc: Global, fails: Fails) -> Result<bool, Fail> {
    let (input, _) = Course::Whole.spoken(alloc)?;
    let mut disk = disk_of(alloc, b"", fails)?;
    let mut known = Known {
        entries: 0,
        unsure: false,
    };
    for _ in 0..2 {
        let ran = run(alloc, input.as_slice(), None, disk)?;
        let found = learned(alloc, known, ran.status, ran.written.as_slice())?;
        disk = ran.disk;
        match found {
            Some(now) => known = now,
            None => return Ok(false),
        }
        for fill in FILLS {
            if !is_kept(alloc, input.as_slice(), &disk, fill, known)? {
                return Ok(false);
            }
        }
    }
    Ok(true)
}

/// The first call whose failing is not survived: alone, with all later ones, or behind a put that failed, where the
/// next put or the next opening mends the journal.
fn lost(alloc: Global) -> Result<Option<u64>, Fail> {
    for call in 1..=CALLS {
        let well = goes_well(alloc, fails_of(alloc, &[call], None)?)?
            && goes_well(alloc, fails_of(alloc, &[], Some(call))?)?
            && goes_well(alloc, fails_of(alloc, &[SYNC_OF_THE_PUT, call], None)?)?;
        if !well {
            return Ok(Some(call));
        }
    }
    Ok(None)
}

#[test]
fn each_call_of_the_disk_fails_in_turn(rt: HostRuntime) -> Result<(), Fail> {
    assert_eq!(rt; lost(rt.alloc())?, None);
    Ok(())
}
