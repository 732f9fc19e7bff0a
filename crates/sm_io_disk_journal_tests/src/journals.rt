//! The worked bytes of a journal and of a file that is made anew, and how many calls of the disk they take, alone and
//! through a disk that gathers.
ghost use Rattle.std.specs.Prelude.{◌≡◌, ◌<◌, [], false, OnOk};
ghost use Rattle.sm_journal.specs.Freshes.{IsBegun, has_failed};

use crate::shown::{Shown, show_content};
use sm_base::NoMemory;
use sm_disk::{Disk, DiskFailed, MemoryDisk};
use sm_journal::{Appended, Format, Fresh, Journal};
use sm_memory_fixtures::disks::disk_of;
use sm_memory_fixtures::fails::fails_from;
use sm_write_buffer::Gathered;
use std::alloc::Global;
use std::test::Fail;

/// The body of an entry.
const BODY: [u8; 22] = [
    0, 0, 0, 0, 0x65, 0x53, 0xf1, 0, 0, 0, 0, 0, 0, 0, 0, 0, 0x0c, 0, 0, 0, 1, 0x61,
];

/// A journal of that one body.
const WHOLE: [u8; 36] = [
    0x53, 0x4d, 0x4a, 0x52, 0x4e, 0x4c, 0x30, 0x31, 1, 0, 0, 0, 0x16, 0, 0, 0, 0, 0x65, 0x53, 0xf1,
    0, 0, 0, 0, 0, 0, 0, 0, 0, 0x0c, 0, 0, 0, 1, 0x61, 0,
];

/// A file that is made anew, of the bodies `new` and one without bytes.
const ANEW: [u8; 22] = [
    0x53, 0x4d, 0x4a, 0x52, 0x4e, 0x4c, 0x30, 0x32, 1, 0, 0, 0, 3, 0x6e, 0x65, 0x77, 1, 0, 0, 0, 0,
    0,
];

/// What is done over a disk.
#[derive(Clone, Copy)]
enum Work {
    /// A journal is opened, and that body is added so often.
    Records(u32),
    /// A file of the two bodies is made anew.
    Anew,
}

/// The disk of a new journal with so many records, if all of it succeeded.
fn recorded<D: Disk + Drop>(alloc: Global, disk: D, records: u32) -> Option<D> {
    let Ok((mut journal, _)) = Journal::open(alloc, disk, 0, 1000, Format::First) else {
        return None;
    };
    for _ in 0..records {
        if journal.is_unsure() || journal.append(&BODY) != Appended::Ok {
            return None;
        }
    }
    Some(journal.close())
}

/// Adds the two bodies to a file that is made anew.
fn add_both<D: Disk>(fresh: &mut Fresh<D>) -> Result<(), DiskFailed>
    requires { IsBegun 1 1000 [] fresh.old }
    ensures { OnOk result (has_failed fresh.new ≡ false) }
{
    fresh.add(b"new")?;
    fresh.add(b"")?;
    Ok(())
}

/// The disk of a file that is made anew, once it was synced.
fn sealed<D: Disk + Drop>(mut fresh: Fresh<D>) -> Option<D>
    requires { IsBegun 1 1000 [] fresh }
{
    if add_both(&mut fresh).is_err() {
        return None;
    }
    match fresh.seal() {
        Ok(journal) => Some(journal.close()),
        Err(_) => None,
    }
}

/// The disk when a work is done, if all of it succeeded.
fn done<D: Disk + Drop>(alloc: Global, disk: D, work: Work) -> Option<D> {
    match work {
        Work::Records(records) => recorded(alloc, disk, records),
        Work::Anew => match Fresh::make(disk, 1, 1000) {
            Ok(fresh) => sealed(fresh),
            Err(_) => None,
        },
    }
}

/// A disk whose files are empty, and whose calls behind so many fail.
fn disk_until(alloc: Global, calls: u64) -> Result<MemoryDisk, NoMemory> {
    disk_of(alloc, b"", fails_from(alloc, Some(calls.saturating_add(1))))
}

/// More calls than any work here takes.
const MOST: u64 = 64;

/// How many calls of the disk a work takes: with one fewer it fails.
fn calls_alone(alloc: Global, work: Work) -> Result<u64, NoMemory> {
    for calls in 0..MOST {
        if done(alloc, disk_until(alloc, calls)?, work).is_some() {
            return Ok(calls);
        }
    }
    Ok(MOST)
}

/// The same through a disk that gathers.
fn calls_gathered(alloc: Global, work: Work) -> Result<u64, NoMemory> {
    for calls in 0..MOST {
        let disk = Gathered::new(alloc, disk_until(alloc, calls)?);
        if done(alloc, disk, work).is_some() {
            return Ok(calls);
        }
    }
    Ok(MOST)
}

/// How many calls of the disk a work takes, alone and through a disk that gathers.
fn calls(alloc: Global, work: Work) -> Result<(u64, u64), NoMemory> {
    let alone = calls_alone(alloc, work)?;
    Ok((alone, calls_gathered(alloc, work)?))
}

#[test]
fn a_disk_that_gathers_makes_fewer_calls(rt: HostRuntime) -> Result<(), Fail> {
    let one = calls(rt.alloc(), Work::Records(1))?;
    let two = calls(rt.alloc(), Work::Records(2))?;
    let more = (two.0.saturating_sub(one.0), two.1.saturating_sub(one.1));
    assert_eq!(rt; more, (6, 4), "a record");
    assert_eq!(rt;
        calls(rt.alloc(), Work::Anew)?,
        (9, 3),
        "a file of two records"
    );
    Ok(())
}

/// What a file holds when a work is done.
fn shown_of(alloc: Global, work: Work, file: u8) -> Result<Shown, NoMemory>
    requires { file < 3 }
{
    let mut shown = Shown::new(alloc);
    match done(alloc, disk_until(alloc, MOST)?, work) {
        Some(mut disk) => show_content(alloc, &mut disk, file, &mut shown),
        None => shown.push(b'!'),
    }
    Ok(shown)
}

#[test]
fn bytes_are_exact(rt: HostRuntime) -> Result<(), Fail> {
    let journal = shown_of(rt.alloc(), Work::Records(1), 0)?;
    journal.compare(&rt, "a journal of one body", &WHOLE);
    let anew = shown_of(rt.alloc(), Work::Anew, 1)?;
    anew.compare(&rt, "a file that is made anew", &ANEW);
    Ok(())
}
