//! A disk over a folder of the system.
ghost use Rattle.std.specs.Prelude.{◌<◌};

use crate::shown::{Shown, show_content};
use sm_disk::{Disk, DiskFailed, FileDisk, FolderRefused};
use std::alloc::{AllocError, Global};
use std::fs;
use std::os::unix::fs::{MetadataExt, symlink};
use std::path::PathBuf;
use std::test::Fail;

/// The names of the files, each after its number, and that of the lock.
const NAMES: [&str; 4] = ["journal-0", "journal-1", "root", "lock"];

/// What is tried.
#[derive(Clone, Copy)]
enum Case {
    /// The folder is filled, and opened again.
    Filled,
    /// The modes of the files that are made.
    Modes,
    /// The folder is opened twice at once, and then once more.
    Twice,
    /// The file of this number is a link to `/dev/full`, on which each write, cut and sync fails. It is written and
    /// cut, each file is synced, each is asked for its length, and the folder is opened again.
    Full(u8),
}

/// A name, what is tried, and what comes of it. A `.` is an Ok, and a `!` an error.
struct Row {
    name: &'static str,
    case: Case,
    wanted: &'static [u8],
}

const ROWS: [Row; 6] = [
    Row {
        name: "a folder is opened again",
        case: Case::Filled,
        wanted: b"abZZe  \x01!",
    },
    Row {
        name: "the files are their owner's alone",
        case: Case::Modes,
        wanted: b"600 600 600 600 ",
    },
    Row {
        name: "a folder is one program's alone",
        case: Case::Twice,
        wanted: b".taken.",
    },
    Row {
        name: "a fault of file 0 is told, and a sync that failed loses it",
        case: Case::Full(0),
        wanted: b"!!!.. !.. ...",
    },
    Row {
        name: "a fault of file 1 is told, and a sync that failed loses it",
        case: Case::Full(1),
        wanted: b"!!.!. .!. ...",
    },
    Row {
        name: "a fault of file 2 is told, and a sync that failed loses it",
        case: Case::Full(2),
        wanted: b"!!..! ..! ...",
    },
];

/// The folder of a number, which may be there.
fn folder_of(rt: &HostRuntime, number: u32) -> Result<PathBuf<Global>, Fail> {
    let name = format!(in rt.alloc(); "sm_outside-{number}")?;
    let above = std::env::temp_dir(rt)?;
    Ok(above.join(rt.alloc(), name.as_str())?)
}

/// A folder that wasn't there.
fn new_folder(rt: &HostRuntime) -> Result<PathBuf<Global>, Fail> {
    for number in 0..1_000u32 {
        let folder = folder_of(rt, number)?;
        if fs::create_dir(rt, folder.as_str()).is_ok() {
            return Ok(folder);
        }
    }
    Err("no folder could be made".into())
}

/// Writes and cuts file 0 and file 2, and syncs both.
fn write_files(disk: &mut FileDisk) -> Result<(), DiskFailed> {
    disk.write_at(0, 0, b"abcdef")?;
    disk.write_at(0, 2, b"ZZ")?;
    disk.sync(0)?;
    disk.cut(0, 5)?;
    disk.write_at(2, 0, b"\x01")?;
    disk.sync(2)?;
    disk.sync(0)
}

/// Fills the folder.
fn fill(rt: &HostRuntime, folder: &str) -> Result<(), Fail> {
    write_files(&mut FileDisk::open(rt, rt.alloc(), folder)?)?;
    Ok(())
}

/// What the files hold, and whether more is read than one of them holds.
fn show_files(alloc: Global, disk: &mut FileDisk, shown: &mut Shown) {
    show_content(alloc, disk, 0, shown);
    for file in 1..3u8 {
        shown.push(b' ');
        show_content(alloc, disk, file, shown);
    }
    shown.push_well(disk.read(0, 4, &mut [0u8; 2]).is_ok());
}

/// What a filled folder holds.
fn show_filled(rt: &HostRuntime, folder: &str, shown: &mut Shown) -> Result<(), Fail> {
    fill(rt, folder)?;
    let mut disk = FileDisk::open(rt, rt.alloc(), folder)?;
    show_files(rt.alloc(), &mut disk, shown);
    Ok(())
}

/// The path of a file of the folder.
fn path_of(alloc: Global, folder: &str, name: &str) -> Result<String, AllocError> {
    format!(in alloc; "{folder}/{name}")
}

/// The last nine bits of the mode of a file of the folder, in octal digits.
fn mode_of(rt: &HostRuntime, folder: &str, name: &str) -> Result<String, Fail> {
    let path = path_of(rt.alloc(), folder, name)?;
    let mode = fs::metadata(rt, path.as_str())?.mode() % 512;
    Ok(format!(in rt.alloc(); "{mode:o} ")?)
}

fn show_modes(rt: &HostRuntime, folder: &str, shown: &mut Shown) -> Result<(), Fail> {
    fill(rt, folder)?;
    for name in &NAMES {
        shown.add(mode_of(rt, folder, name)?.as_str().as_bytes());
    }
    Ok(())
}

fn opened(opened: &Result<FileDisk, FolderRefused>) -> &'static str {
    match opened {
        Ok(_) => ".",
        Err(FolderRefused::Taken) => "taken",
        Err(FolderRefused::Failed(_)) => "!",
    }
}

/// What comes of an opening.
fn show_opening(rt: &HostRuntime, folder: &str, shown: &mut Shown) {
    shown.add(opened(&FileDisk::open(rt, rt.alloc(), folder)).as_bytes());
}

/// What comes of an opening, and of another one while the first stands.
fn show_both(rt: &HostRuntime, folder: &str, shown: &mut Shown) {
    let first = FileDisk::open(rt, rt.alloc(), folder);
    shown.add(opened(&first).as_bytes());
    show_opening(rt, folder, shown);
}

fn show_lengths(disk: &mut FileDisk, shown: &mut Shown) {
    shown.push(b' ');
    for file in 0..3u8 {
        shown.push_well(disk.length(file).is_ok());
    }
}

/// What comes of a write, a cut, the syncs and the lengths.
fn show_faults(disk: &mut FileDisk, file: u8, shown: &mut Shown)
    requires { file < 3 }
{
    shown.push_well(disk.write_at(file, 0, b"a").is_ok());
    shown.push_well(disk.cut(file, 0).is_ok());
    for synced in 0..3u8 {
        shown.push_well(disk.sync(synced).is_ok());
    }
    show_lengths(disk, shown);
}

/// Makes a file of the folder a link to `/dev/full`.
fn link_full(rt: &HostRuntime, folder: &str, file: u8) -> Result<(), Fail> {
    let name = NAMES.get(file as usize).copied().unwrap_or("root");
    let link = path_of(rt.alloc(), folder, name)?;
    symlink(rt, "/dev/full", link.as_str())?;
    Ok(())
}

/// What comes of a folder with a link to `/dev/full`.
fn use_full(rt: &HostRuntime, folder: &str, file: u8, shown: &mut Shown) -> Result<(), Fail>
    requires { file < 3 }
{
    let mut disk = FileDisk::open(rt, rt.alloc(), folder)?;
    show_faults(&mut disk, file, shown);
    Ok(())
}

/// The same, and the lengths in the folder when it is opened again.
fn show_full(rt: &HostRuntime, folder: &str, file: u8, shown: &mut Shown) -> Result<(), Fail>
    requires { file < 3 }
{
    link_full(rt, folder, file)?;
    use_full(rt, folder, file, shown)?;
    let mut disk = FileDisk::open(rt, rt.alloc(), folder)?;
    show_lengths(&mut disk, shown);
    Ok(())
}

fn show_case(rt: &HostRuntime, folder: &str, case: Case, shown: &mut Shown) -> Result<(), Fail> {
    match case {
        Case::Filled => show_filled(rt, folder, shown),
        Case::Modes => show_modes(rt, folder, shown),
        Case::Twice => {
            show_both(rt, folder, shown);
            show_opening(rt, folder, shown);
            Ok(())
        }
        Case::Full(file) if file < 3 => show_full(rt, folder, file, shown),
        Case::Full(_) => Ok(()),
    }
}

/// What comes of a case in a new folder, which is removed then.
fn shown_of(rt: &HostRuntime, case: Case) -> Result<Shown, Fail> {
    let folder = new_folder(rt)?;
    let mut shown = Shown::new(rt.alloc());
    let tried = show_case(rt, folder.as_str(), case, &mut shown);
    let removed = fs::remove_dir_all(rt, folder.as_str());
    tried?;
    removed?;
    Ok(shown)
}

#[test]
fn a_folder_is_a_disk(rt: HostRuntime) -> Result<(), Fail> {
    for row in &ROWS {
        shown_of(&rt, row.case)?.compare(&rt, row.name, row.wanted);
    }
    Ok(())
}
