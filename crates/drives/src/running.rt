//! A list of calls over the disk that gathers, which is that of secretsd, on one in memory, and what crashes leave
//! of it.
use crate::listed::ListedRotator;
use crate::reading::Asked;
use crate::rows::rows_of;
use sm_account::{Account, OpenRefused};
use sm_base::{Bytes, Fails, List, NoMemory};
use sm_disk::{Disk, MemoryDisk};
use sm_drive::{Call, Driven, Outcome, all_may_be_made, drive};
use sm_rotator::{LocalRotator, Rotator};
use sm_write_buffer::Gathered;
use std::alloc::Global;

/// What comes of the calls, a line for each, and of the crashes.
pub fn say(alloc: Global, asked: Asked) -> Result<String, NoMemory> {
    let Asked {
        held,
        calls,
        fails,
        from,
        mut answers,
        shows,
        crashes,
    } = asked;
    answers.reverse();
    let fails = Fails {
        calls: List::new(fails),
        from,
    };
    let empty = Bytes::empty(alloc);
    let disk = MemoryDisk::new(alloc, Bytes::new(held), empty, Bytes::empty(alloc), fails)?;
    let mut rotator = ListedRotator {
        answers,
        local: LocalRotator::new(alloc),
        faults: 0,
    };
    let mut text = String::new(alloc);
    let left = run(alloc, disk, calls, &mut rotator, shows, &mut text)?;
    for fill in crashes.as_slice() {
        let head = format!(in alloc; "crash {fill}\n")?;
        text.push_str(head.as_str())?;
        let crashed = left.crash(*fill)?;
        let _ = run(
            alloc,
            crashed,
            Vec::new(alloc),
            &mut rotator,
            shows,
            &mut text,
        )?;
    }
    Ok(text)
}

/// Makes the calls over a disk in memory, says what comes of them, and hands the disk back.
fn run(
    alloc: Global,
    disk: MemoryDisk,
    calls: Vec<Call>,
    rotator: &mut ListedRotator,
    shows: bool,
    text: &mut String,
) -> Result<MemoryDisk, NoMemory> {
    let left = run_over(
        alloc,
        Gathered::new(alloc, disk),
        calls,
        rotator,
        shows,
        text,
    )?;
    Ok(left.into_disk())
}

/// The same over any disk, with any rotator.
fn run_over<D: Disk + Drop, R: Rotator>(
    alloc: Global,
    disk: D,
    calls: Vec<Call>,
    rotator: &mut R,
    shows: bool,
    text: &mut String,
) -> Result<D, NoMemory> {
    if !all_may_be_made(calls.as_slice()) {
        text.push_str("not asked\n")?;
        return Ok(disk);
    }
    match drive(alloc, disk, List::new(calls), rotator) {
        Ok(driven) => tell(alloc, driven, shows, text),
        Err(refused) => tell_refused(alloc, refused, text),
    }
}

/// Says the outcomes, the number of entries, and the secrets where they are to be shown.
fn tell<D: Disk + Drop, R: Rotator>(
    alloc: Global,
    driven: Driven<D, R>,
    shows: bool,
    text: &mut String,
) -> Result<D, NoMemory> {
    let Driven {
        account,
        outcomes,
        verdicts: _,
    } = driven;
    tell_outcomes(alloc, outcomes.as_slice(), text)?;
    tell_account(alloc, &account, shows, text)?;
    Ok(account.close())
}

fn tell_outcomes(alloc: Global, outcomes: &[Outcome], text: &mut String) -> Result<(), NoMemory> {
    for outcome in outcomes {
        let line = format!(in alloc; "{outcome:?}\n")?;
        text.push_str(line.as_str())?;
    }
    Ok(())
}

fn tell_account<D: Disk, R: Rotator>(
    alloc: Global,
    account: &Account<D, R>,
    shows: bool,
    text: &mut String,
) -> Result<(), NoMemory> {
    let (entries, before) = (account.entries(), account.base().entries);
    let count = format!(in alloc; "{entries} entries, {before} before the base\n")?;
    text.push_str(count.as_str())?;
    if shows {
        text.push_str(rows_of(alloc, account)?.as_str())?;
        text.push('\n')?;
    }
    Ok(())
}

/// Says why an opening was refused.
fn tell_refused<D: Disk + Drop>(
    alloc: Global,
    refused: OpenRefused<D>,
    text: &mut String,
) -> Result<D, NoMemory> {
    match refused {
        OpenRefused::Damaged(disk, damage) => {
            let line = format!(in alloc; "damaged at {}, entry {}\n", damage.at, damage.entry)?;
            text.push_str(line.as_str())?;
            Ok(disk)
        }
        OpenRefused::Failed(disk) => {
            text.push_str("refused\n")?;
            Ok(disk)
        }
        OpenRefused::Memory(_) => Err(NoMemory),
    }
}
