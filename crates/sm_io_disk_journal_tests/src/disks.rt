//! The images that a disk in memory gives for each fill, and a call that is told to fail.
ghost use Rattle.std.specs.Prelude.{◌<◌};

use crate::shown::{Shown, show_content};
use sm_base::{Bytes, Fails, NoMemory};
use sm_disk::{Disk, DiskFailed, MemoryDisk, QuietDisk};
use sm_memory_fixtures::fails::fails_of;
use std::alloc::Global;
use std::test::Fail;

/// A call of a table.
enum Step {
    Write(u8, u64, &'static [u8]),
    Cut(u8, u64),
    Sync(u8),
}

/// A name, calls on a disk whose file 0 holds `abcdef` and file 1 `xyz`, which calls are told to fail, and what comes
/// of it: the number of faults, and the two files after a crash with fill 0, 1 and 7. Each write and each cut asks for
/// the length first, which is a call too.
struct Row {
    name: &'static str,
    steps: &'static [Step],
    fails: &'static [u64],
    wanted: &'static [u8],
}

const ROWS: [Row; 8] = [
    Row {
        name: "what was written past the end",
        steps: &[Step::Write(0, 6, b"gh")],
        fails: &[],
        wanted: b"0 abcdef xyz abcdefgh xyz abcdef\x07\x07 xyz",
    },
    Row {
        name: "what was synced stays",
        steps: &[
            Step::Write(0, 2, b"ZZ"),
            Step::Sync(0),
            Step::Write(0, 3, b"QQQQ"),
        ],
        fails: &[],
        wanted: b"0 abZZef xyz abZQQQQ xyz abZ\x07\x07\x07\x07 xyz",
    },
    Row {
        name: "a cut may be undone",
        steps: &[Step::Cut(0, 3)],
        fails: &[],
        wanted: b"0 abcdef xyz abc xyz abc xyz",
    },
    Row {
        name: "a write behind a cut",
        steps: &[Step::Cut(0, 3), Step::Write(0, 3, b"k")],
        fails: &[],
        wanted: b"0 abcdef xyz abck xyz abc\x07 xyz",
    },
    Row {
        name: "another file is synced",
        steps: &[
            Step::Write(0, 0, b"k"),
            Step::Sync(1),
            Step::Write(2, 0, b"!"),
        ],
        fails: &[],
        wanted: b"0 abcdef xyz kbcdef xyz \x07bcdef xyz",
    },
    Row {
        name: "a write that failed",
        steps: &[Step::Write(0, 0, b"k"), Step::Sync(0)],
        fails: &[2],
        wanted: b"1 abcdef xyz abcdef xyz abcdef xyz",
    },
    Row {
        name: "a sync that failed",
        steps: &[Step::Write(0, 0, b"k"), Step::Sync(0)],
        fails: &[3],
        wanted: b"1 abcdef xyz kbcdef xyz \x07bcdef xyz",
    },
    Row {
        name: "a cut that failed",
        steps: &[Step::Write(0, 0, b"k"), Step::Sync(0), Step::Cut(0, 1)],
        fails: &[5],
        wanted: b"1 kbcdef xyz kbcdef xyz kbcdef xyz",
    },
];

/// A disk whose file 0 holds `abcdef` and file 1 `xyz`.
fn new_disk(alloc: Global, fails: Fails) -> Result<MemoryDisk, NoMemory> {
    let journal_0 = Bytes::from_slice(alloc, b"abcdef")?;
    let journal_1 = Bytes::from_slice(alloc, b"xyz")?;
    MemoryDisk::new(alloc, journal_0, journal_1, Bytes::empty(alloc), fails)
}

/// Writes where the place is within the file.
fn write<D: Disk>(disk: &mut D, file: u8, at: u64, piece: &[u8]) -> Result<(), DiskFailed>
    requires { file < 3 }
{
    if disk.length(file)? < at {
        return Ok(());
    }
    disk.write_at(file, at, piece)
}

/// Cuts where the end is within the file.
fn cut<D: Disk>(disk: &mut D, file: u8, end: u64) -> Result<(), DiskFailed>
    requires { file < 3 }
{
    if disk.length(file)? < end {
        return Ok(());
    }
    disk.cut(file, end)
}

fn run<D: Disk>(disk: &mut D, step: &Step) -> Result<(), DiskFailed> {
    match step {
        Step::Write(file, at, piece) if *file < 3 => write(disk, *file, *at, piece),
        Step::Cut(file, end) if *file < 3 => cut(disk, *file, *end),
        Step::Sync(file) if *file < 3 => disk.sync(*file),
        _ => Ok(()),
    }
}

/// The number of faults, as a digit.
fn faults<D: Disk>(disk: &mut D, steps: &[Step]) -> u8 {
    let mut faults = 0u8;
    for step in steps {
        if run(disk, step).is_err() {
            faults = faults.saturating_add(1);
        }
    }
    b'0' + faults % 10
}

/// Shows what a crash with this fill leaves of the two files.
fn show_crash(
    alloc: Global,
    disk: &MemoryDisk,
    fill: u8,
    shown: &mut Shown,
) -> Result<(), NoMemory> {
    let mut left = disk.crash(fill)?;
    for file in 0..2u8 {
        shown.push(b' ');
        show_content(alloc, &mut left, file, shown);
    }
    Ok(())
}

/// What comes of a row: the faults, and what its crashes leave.
fn shown(alloc: Global, row: &Row) -> Result<Shown, NoMemory> {
    let mut disk = new_disk(alloc, fails_of(alloc, row.fails, None)?)?;
    let mut shown = Shown::new(alloc);
    shown.push(faults(&mut disk, row.steps));
    for fill in [0, 1, 7] {
        show_crash(alloc, &disk, fill, &mut shown)?;
    }
    Ok(shown)
}

#[test]
fn crashes_leave_what_the_fills_say(rt: HostRuntime) -> Result<(), Fail> {
    for row in &ROWS {
        shown(rt.alloc(), row)?.compare(&rt, row.name, row.wanted);
    }
    assert_eq!(rt; faults(&mut QuietDisk, ROWS[0].steps), b'0');
    Ok(())
}
