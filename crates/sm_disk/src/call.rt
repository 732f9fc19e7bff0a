//! The calls that a disk in memory keeps, and what they make of a file.
ghost use Rattle.std.specs.Prelude.{◌≡◌, OnOk, IfOk, ◌+◌, ◌++◌, ◌≤◌, length, take, drop, map};
ghost use Rattle.sm_disk.specs.Calls.{read_after, replayed, syncs, synced_calls, filled, left_unsynced};

use sm_base::{Bytes, NoMemory};
use std::alloc::Global;

/// What was asked of a file.
#[derive(Drop)]
pub enum Act {
    /// Write a piece at a place.
    Write(u64, Bytes),
    /// Cut the file to a length.
    Cut(u64),
    /// Sync the file.
    Sync,
}

/// One call on one file.
#[derive(Drop)]
pub struct Call {
    pub file: u8,
    /// It was done; else it failed.
    pub done: bool,
    pub act: Act,
}

/// Writes a piece over what is there, and past the end.
fn write(bytes: &mut Vec<u8>, at: u64, piece: &[u8]) -> Result<(), NoMemory>
    ensures { OnOk result (bytes.new.items
        ≡ take at bytes.old.items ++ piece.now ++ drop (at + length piece.now) bytes.old.items) }
{
    let at = at as usize;
    if at < bytes.len() && piece.len() <= bytes.len() - at {
        let end = at + piece.len();
        bytes[at..end].copy_from_slice(piece);
    } else {
        bytes.truncate(at);
        bytes.extend_from_slice(piece)?;
    }
    Ok(())
}

/// Makes a call's change, if it was done on this file.
fn apply(bytes: &mut Vec<u8>, file: u8, call: &Call) -> Result<(), NoMemory>
    ensures { OnOk result (bytes.new.items ≡ read_after file call.now bytes.old.items) }
{
    if call.file != file || !call.done {
        return Ok(());
    }
    match &call.act {
        Act::Write(at, piece) => write(bytes, *at, piece.as_slice()),
        Act::Cut(end) => {
            bytes.truncate(*end as usize);
            Ok(())
        }
        Act::Sync => Ok(()),
    }
}

/// The same, with each byte that is written replaced by another one.
fn apply_filled(
    alloc: Global,
    bytes: &mut Vec<u8>,
    file: u8,
    call: &Call,
    fill: u8,
) -> Result<(), NoMemory>
    ensures { OnOk result (bytes.new.items ≡ read_after file (filled fill call.now) bytes.old.items) }
{
    if call.file != file || !call.done {
        return Ok(());
    }
    match &call.act {
        Act::Write(at, piece) => {
            let filler = vec![in alloc; fill; piece.len()]?;
            write(bytes, *at, filler.as_slice())
        }
        Act::Cut(end) => {
            bytes.truncate(*end as usize);
            Ok(())
        }
        Act::Sync => Ok(()),
    }
}

/// What the file reads as after these calls.
pub fn replay(bytes: &mut Vec<u8>, file: u8, calls: &[Call]) -> Result<(), NoMemory>
    ensures { OnOk result (bytes.new.items ≡ replayed file calls.now bytes.old.items) }
{
    for call in calls {
        apply(bytes, file, call)?;
    }
    Ok(())
}

/// The same, with each byte that is written replaced by another one.
fn replay_filled(
    alloc: Global,
    bytes: &mut Vec<u8>,
    file: u8,
    calls: &[Call],
    fill: u8,
) -> Result<(), NoMemory>
    ensures { OnOk result (bytes.new.items
        ≡ replayed file (map (filled fill) calls.now) bytes.old.items) }
{
    for call in calls {
        apply_filled(alloc, bytes, file, call, fill)?;
    }
    Ok(())
}

/// What a crash with this fill leaves of calls that aren't synced: for 0 nothing, for 1 all of it, and for any other
/// one all of it with each byte that is written replaced by the fill.
pub fn replay_unsynced(
    alloc: Global,
    bytes: &mut Vec<u8>,
    file: u8,
    calls: &[Call],
    fill: u8,
) -> Result<(), NoMemory>
    ensures { OnOk result (bytes.new.items ≡ left_unsynced fill file calls.now bytes.old.items) }
{
    match fill {
        0 => Ok(()),
        1 => replay(bytes, file, calls),
        _ => replay_filled(alloc, bytes, file, calls, fill),
    }
}

/// Whether the call is a sync of the file that was done.
fn is_sync(file: u8, call: &Call) -> bool
    ensures { result ≡ syncs file call.now }
{
    match call.act {
        Act::Sync => call.file == file && call.done,
        Act::Write(..) | Act::Cut(_) => false,
    }
}

/// How many calls there were up to the file's last sync that was done, with that one.
pub fn count_synced(file: u8, calls: &[Call]) -> usize
    ensures count { result ≡ synced_calls file calls.now }
    ensures within { result ≤ length calls.now }
{
    let mut count = 0;
    for (index, call) in calls.iter().enumerate() {
        if is_sync(file, call) {
            count = index + 1;
        }
    }
    count
}
