//! A disk over a folder: the trusted edge, of which no clause says what it holds.
ghost use Rattle.std.specs.Prelude.{◌≡◌, true, false, Ok, IsErr, IfOk, OnOk, OnErr, MatchResult};
ghost use Rattle.sm_disk.specs.Faults.{HasCause, faults_after};

use crate::disk::{Disk, DiskFailed};
use std::alloc::Global;
use std::error::Error;
use std::fs::{File, OpenOptions, TryLockError};
use std::io::ErrorKind;
use std::os::unix::fs::{FileExt, OpenOptionsExt};
use std::path::Path;
use std::rt::Files;
use std::{fmt, io};

/// Who may read and write the files that are made: their owner alone, since they hold plain secrets.
const MODE: u32 = 0o600;

/// One file of the folder.
#[derive(Drop)]
pub struct Kept {
    pub file: File,
    /// A sync of it failed. What the system still holds of it may differ from what is on the disk, and a later sync
    /// would not say so.
    pub is_lost: bool,
}

/// The files `journal-0`, `journal-1` and `root` of a folder, and the lock that keeps other programs out of it. Each
/// error is counted, and nothing else is.
///
/// Once a sync of a file failed each later call on it fails, until the folder is opened anew: a system may drop what it
/// could not write, and answer the next sync as if nothing had been.
pub struct FileDisk {
    journal_0: Kept,
    journal_1: Kept,
    root: Kept,
    lock: File,
    faults: u64,
}

/// Who lets a disk go makes one call.
impl Drop for FileDisk {
    fn drop(self) {
        let FileDisk {
            journal_0: _,
            journal_1: _,
            root: _,
            lock: _,
            faults: _,
        } = self;
    }
}

/// Why a folder is not opened.
#[derive(Debug, Drop)]
pub enum FolderRefused {
    /// Another program has it open.
    Taken,
    /// A file of it could not be opened, made or synced.
    Failed(io::Error),
}

impl From<io::Error> for FolderRefused {
    fn from(error: io::Error) -> FolderRefused {
        FolderRefused::Failed(error)
    }
}

impl fmt::Display for FolderRefused {
    fn fmt<W: fmt::Write>(&self, f: &mut fmt::Formatter<W>) -> fmt::Result {
        match self {
            FolderRefused::Taken => f.write_str("another program has the folder open"),
            FolderRefused::Failed(error) => fmt::Display::fmt(error, f),
        }
    }
}

impl Error for FolderRefused {}

/// The file of this name in the folder, which is made if it isn't there.
fn open_in<R: Files<File = File>>(
    rt: &R,
    alloc: Global,
    folder: &str,
    name: &str,
) -> io::Result<File> {
    let path = Path::new(folder).join(alloc, name)?;
    OpenOptions::new()
        .read(true)
        .write(true)
        .create(true)
        .mode(MODE)
        .open(rt, &path)
}

/// The file as it is kept at first.
fn keep(file: File) -> Kept
    ensures { result.is_lost ≡ false }
{
    Kept {
        file,
        is_lost: false,
    }
}

/// A folder whose lock is not had is refused.
fn check_lock(locked: Result<(), TryLockError>) -> Result<(), FolderRefused>
    ensures { MatchResult locked (λ _. result ≡ Ok tt) (λ _. IsErr result) }
{
    match locked {
        Ok(()) => Ok(()),
        Err(TryLockError::WouldBlock) => Err(FolderRefused::Taken),
        Err(TryLockError::Error(error)) => Err(FolderRefused::Failed(error)),
    }
}

/// Counts an error as a fault.
fn count_error<T>(faults: &mut u64, outcome: io::Result<T>) -> Result<T, DiskFailed>
    ensures value { MatchResult outcome (λ value. result ≡ Ok value) (λ _. IsErr result) }
    ensures count { faults.new ≡ faults_after result faults.old }
    ensures cause { HasCause faults.old faults.new result }
{
    match outcome {
        Ok(value) => Ok(value),
        Err(_) => {
            *faults = faults.saturating_add(1);
            Err(DiskFailed)
        }
    }
}

impl FileDisk {
    ghost use Rattle.sm_disk.specs.Folder.{kept_of, is_lost, lost, IsFresh};

    /// Opens the files of a folder that is there, and makes those that aren't. The lock on its file `lock` is had as
    /// long as the disk is there, and the folder is synced, so that a file that was made is not lost with its name.
    pub fn open<R: Files<File = File>>(
        rt: &R,
        alloc: Global,
        folder: &str,
    ) -> Result<FileDisk, FolderRefused>
        ensures { IfOk result IsFresh }
    {
        let lock = open_in(rt, alloc, folder, "lock")?;
        check_lock(lock.try_lock())?;
        let disk = FileDisk {
            journal_0: keep(open_in(rt, alloc, folder, "journal-0")?),
            journal_1: keep(open_in(rt, alloc, folder, "journal-1")?),
            root: keep(open_in(rt, alloc, folder, "root")?),
            lock,
            faults: 0,
        };
        File::open(rt, folder)?.sync_all()?;
        Ok(disk)
    }

    /// The file of this number, unless it is lost.
    fn file(&self, file: u8) -> io::Result<&File>
        ensures file { IfOk result (λ it. it.now ≡ (kept_of self.now file).file) }
        ensures found { OnOk result (is_lost self.now file ≡ false) }
        ensures lost { OnErr result (is_lost self.now file ≡ true) }
    {
        let kept = match file {
            0 => &self.journal_0,
            1 => &self.journal_1,
            _ => &self.root,
        };
        if kept.is_lost {
            return Err(io::Error::from(ErrorKind::Other));
        }
        Ok(&kept.file)
    }

    /// No later call on the file succeeds.
    fn lose(&mut self, file: u8)
        ensures { self.new ≡ lost self.old file }
    {
        match file {
            0 => self.journal_0.is_lost = true,
            1 => self.journal_1.is_lost = true,
            _ => self.root.is_lost = true,
        }
    }
}

impl Disk for FileDisk {
    ghost use Rattle.sm_disk.specs.Sight.{untold};
    ghost use Rattle.sm_disk.specs.Folder.{Counted, CountedSync};

    ghost sight = { λ _. untold };

    ghost faults = { λ disk. disk.faults };

    fn length(&mut self, file: u8) -> Result<u64, DiskFailed>
        ensures cause { HasCause self.old.faults self.new.faults result }
        ensures counted { Counted file self.old self.new result }
    {
        let length = match self.file(file) {
            Ok(file) => file.metadata().map(|metadata| metadata.len()),
            Err(error) => Err(error),
        };
        count_error(&mut self.faults, length)
    }

    fn read(&mut self, file: u8, at: u64, buf: &mut [u8]) -> Result<(), DiskFailed>
        ensures cause { HasCause self.old.faults self.new.faults result }
        ensures counted { Counted file self.old self.new result }
    {
        let read = match self.file(file) {
            Ok(file) => file.read_exact_at(buf, at),
            Err(error) => Err(error),
        };
        count_error(&mut self.faults, read)
    }

    fn write_at(&mut self, file: u8, at: u64, piece: &[u8]) -> Result<(), DiskFailed>
        ensures cause { HasCause self.old.faults self.new.faults result }
        ensures counted { Counted file self.old self.new result }
    {
        let written = match self.file(file) {
            Ok(file) => file.write_all_at(piece, at),
            Err(error) => Err(error),
        };
        count_error(&mut self.faults, written)
    }

    fn cut(&mut self, file: u8, end: u64) -> Result<(), DiskFailed>
        ensures cause { HasCause self.old.faults self.new.faults result }
        ensures counted { Counted file self.old self.new result }
    {
        let cut = match self.file(file) {
            Ok(file) => file.set_len(end),
            Err(error) => Err(error),
        };
        count_error(&mut self.faults, cut)
    }

    fn sync(&mut self, file: u8) -> Result<(), DiskFailed>
        ensures cause { HasCause self.old.faults self.new.faults result }
        ensures counted { CountedSync file self.old self.new result }
    {
        let synced = match self.file(file) {
            Ok(file) => file.sync_data(),
            Err(error) => Err(error),
        };
        let result = count_error(&mut self.faults, synced);
        if result.is_err() {
            self.lose(file);
        }
        result
    }

    ghost reads_image = { λ _ s reads. reads };

    ghost counts_now = { λ _ t c le image. image };

    ghost only_now = { λ _ c left. left };
}
