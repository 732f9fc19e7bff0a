//! A disk over a folder, which says what fails: the trusted edge, of which no clause says what it holds.
ghost use Rattle.std.specs.Prelude.{◌≡◌, true, false, Ok, IsErr, IfOk, OnOk, OnErr, MatchResult};
ghost use Rattle.sm_disk.specs.Faults.{HasCause, faults_after};

use crate::naming::{Folder, Named};
use crate::opening::{Opening, name_of};
use crate::reports::{Kind, Reports};
use sm_disk::{Disk, DiskFailed, FolderRefused};
use sm_write_buffer::OneReading;
use std::alloc::Global;
use std::fs::{File, OpenOptions, TryLockError};
use std::io;
use std::io::ErrorKind;
use std::os::unix::fs::{FileExt, OpenOptionsExt};
use std::path::Path;
use std::rt::Files;

/// Who may read and write the files that are made: their owner alone, since they hold plain secrets.
const MODE: u32 = 0o600;

/// One file of the folder.
#[derive(Drop)]
pub struct Kept {
    pub file: File,
    /// A sync of it failed. What the system still holds of it may differ from what is on the disk, and a later sync
    /// would not say so.
    pub is_lost: bool,
}

/// The files `journal-0`, `journal-1` and `root` of a folder, and the lock that keeps other programs out of it. Each
/// error is counted and said, and nothing else is counted.
///
/// Once a sync of a file failed each later call on it fails, until the folder is opened anew: a system may drop what it
/// could not write, and answer the next sync as if nothing had been. A sync of a file that has no name any more fails
/// too, since nobody can find it again.
pub struct FolderDisk<'a> {
    journal_0: Kept,
    journal_1: Kept,
    root: Kept,
    lock: File,
    folder: Folder<'a>,
    /// What was seen last of the name of a file.
    named: Option<Named>,
    reports: &'a Reports<'a>,
    opening: &'a Opening<'a>,
    faults: u64,
}

/// Who lets a disk go makes one call.
impl<'a> Drop for FolderDisk<'a> {
    fn drop(self) {
        let FolderDisk {
            journal_0: _,
            journal_1: _,
            root: _,
            lock: _,
            folder: _,
            named: _,
            reports: _,
            opening: _,
            faults: _,
        } = self;
    }
}

/// The file of this name in the folder, which is made if it isn't there.
fn open_in(rt: &HostRuntime, alloc: Global, folder: &str, name: &str) -> io::Result<File> {
    let path = Path::new(folder).join(alloc, name)?;
    OpenOptions::new()
        .read(true)
        .write(true)
        .create(true)
        .mode(MODE)
        .open(rt, &path)
}

/// The file as it is kept at first.
fn keep(file: File) -> Kept
    ensures { result.is_lost ≡ false }
{
    Kept {
        file,
        is_lost: false,
    }
}

/// A folder whose lock is not had is refused.
fn check_lock(locked: Result<(), TryLockError>) -> Result<(), FolderRefused>
    ensures { MatchResult locked (λ _. result ≡ Ok tt) (λ _. IsErr result) }
{
    match locked {
        Ok(()) => Ok(()),
        Err(TryLockError::WouldBlock) => Err(FolderRefused::Taken),
        Err(TryLockError::Error(error)) => Err(FolderRefused::Failed(error)),
    }
}

impl<'a> FolderDisk<'a> {
    ghost use Rattle.secretsd.specs.Folder.{kept_of, is_lost, lost, IsFresh};

    /// Opens the files of a folder that is there, and makes those that aren't. The lock on its file `lock` is had as
    /// long as the disk is there, and the folder is synced, so that a file that was made is not lost with its name.
    pub fn open(
        rt: &'a HostRuntime,
        path: &'a str,
        reports: &'a Reports<'a>,
        opening: &'a Opening<'a>,
    ) -> Result<FolderDisk<'a>, FolderRefused>
        ensures { IfOk result IsFresh }
    {
        let alloc = rt.alloc();
        let lock = open_in(rt, alloc, path, "lock")?;
        check_lock(lock.try_lock())?;
        let journal_0 = keep(open_in(rt, alloc, path, name_of(0))?);
        let journal_1 = keep(open_in(rt, alloc, path, name_of(1))?);
        let root = keep(open_in(rt, alloc, path, name_of(2))?);
        let folder = Folder::open(rt, path)?;
        folder.sync()?;
        Ok(FolderDisk {
            journal_0,
            journal_1,
            root,
            lock,
            folder,
            named: None,
            reports,
            opening,
            faults: 0,
        })
    }

    /// The file of this number, unless it is lost.
    fn file(&self, file: u8) -> io::Result<&File>
        ensures file { IfOk result (λ it. it.now ≡ (kept_of self.now file).file) }
        ensures found { OnOk result (is_lost self.now file ≡ false) }
        ensures lost { OnErr result (is_lost self.now file ≡ true) }
    {
        let kept = match file {
            0 => &self.journal_0,
            1 => &self.journal_1,
            _ => &self.root,
        };
        if kept.is_lost {
            return Err(io::Error::new(ErrorKind::Other, "an earlier sync of it failed"));
        }
        Ok(&kept.file)
    }

    /// No later call on the file succeeds.
    fn lose(&mut self, file: u8)
        ensures { self.new ≡ lost self.old file }
    {
        match file {
            0 => self.journal_0.is_lost = true,
            1 => self.journal_1.is_lost = true,
            _ => self.root.is_lost = true,
        }
    }

    /// Counts an error as a fault, and says it: what was asked of which file, and what the system says.
    fn count_error<T>(
        &mut self,
        file: u8,
        call: &str,
        outcome: io::Result<T>,
    ) -> Result<T, DiskFailed>
        ensures value { MatchResult outcome (λ value. result ≡ Ok value) (λ _. IsErr result) }
        ensures count { self.new ≡ record self.old { faults = faults_after result self.old.faults } }
        ensures cause { HasCause self.old.faults self.new.faults result }
    {
        match outcome {
            Ok(value) => Ok(value),
            Err(error) => {
                self.say(file, call, &error);
                self.faults = self.faults.saturating_add(1);
                Err(DiskFailed)
            }
        }
    }

    /// Says an error.
    fn say(&self, file: u8, call: &str, error: &io::Error) {
        let folder = self.folder.path();
        let name = name_of(file);
        self.reports.say(
            Kind::Disk,
            format_args!("a {call} of the file {name} in {folder} failed: {error}"),
        );
    }
}

impl<'a> FolderDisk<'a> {
    ghost use Rattle.secretsd.specs.Folder.{Counted, CountedSync};

    /// The length of a file.
    fn length_now(&mut self, file: u8) -> Result<u64, DiskFailed>
        ensures cause { HasCause self.old.faults self.new.faults result }
        ensures counted { Counted file self.old self.new result }
    {
        let length = match self.file(file) {
            Ok(file) => file.metadata().map(|metadata| metadata.len()),
            Err(error) => Err(error),
        };
        self.count_error(file, "look at the length", length)
    }

    /// Fills the buffer with the bytes of a file from a place on.
    fn read_now(&mut self, file: u8, at: u64, buf: &mut [u8]) -> Result<(), DiskFailed>
        ensures cause { HasCause self.old.faults self.new.faults result }
        ensures counted { Counted file self.old self.new result }
    {
        let opening = self.opening;
        let read = match self.file(file) {
            Ok(kept) => opening.read(kept, file, at, buf),
            Err(error) => Err(error),
        };
        self.count_error(file, "read", read)
    }

    /// Writes a piece over what is there, and past the end.
    fn write_now(&mut self, file: u8, at: u64, piece: &[u8]) -> Result<(), DiskFailed>
        ensures cause { HasCause self.old.faults self.new.faults result }
        ensures counted { Counted file self.old self.new result }
    {
        self.opening.note_write(file, at, piece);
        let written = match self.file(file) {
            Ok(file) => file.write_all_at(piece, at),
            Err(error) => Err(error),
        };
        self.count_error(file, "write", written)
    }

    /// Cuts a file to a length.
    fn cut_now(&mut self, file: u8, end: u64) -> Result<(), DiskFailed>
        ensures cause { HasCause self.old.faults self.new.faults result }
        ensures counted { Counted file self.old self.new result }
    {
        self.opening.note_cut(file, end);
        let cut = match self.file(file) {
            Ok(file) => file.set_len(end),
            Err(error) => Err(error),
        };
        self.count_error(file, "cut", cut)
    }

    /// Brings a file to the disk.
    fn sync_now(&mut self, file: u8) -> Result<(), DiskFailed>
        ensures cause { HasCause self.old.faults self.new.faults result }
        ensures counted { CountedSync file self.old self.new result }
    {
        let synced = match self.file(file) {
            Ok(kept) => self.sync_named(file, kept),
            Err(error) => Err(error),
        };
        match self.count_error(file, "sync", synced) {
            Ok(named) => {
                self.named = named;
                self.opening.note_sync(file);
                Ok(())
            }
            Err(DiskFailed) => {
                self.lose(file);
                Err(DiskFailed)
            }
        }
    }

    /// Syncs the file of this number, which has to have a name still.
    fn sync_named(&self, number: u8, file: &File) -> io::Result<Option<Named>> {
        let named = self.folder.look_for_name(number, file, self.named)?;
        file.sync_data()?;
        Ok(named)
    }
}

impl<'a> Disk for FolderDisk<'a> {
    ghost use Rattle.sm_disk.specs.Sight.{untold};

    ghost sight = { λ _. untold };

    ghost faults = { λ disk. disk.faults };

    fn length(&mut self, file: u8) -> Result<u64, DiskFailed> {
        self.length_now(file)
    }

    fn read(&mut self, file: u8, at: u64, buf: &mut [u8]) -> Result<(), DiskFailed> {
        self.read_now(file, at, buf)
    }

    fn write_at(&mut self, file: u8, at: u64, piece: &[u8]) -> Result<(), DiskFailed> {
        self.write_now(file, at, piece)
    }

    fn cut(&mut self, file: u8, end: u64) -> Result<(), DiskFailed> {
        self.cut_now(file, end)
    }

    fn sync(&mut self, file: u8) -> Result<(), DiskFailed> {
        self.sync_now(file)
    }

    ghost reads_image = { λ _ s reads. reads };

    ghost counts_now = { λ _ t c le image. image };

    ghost only_now = { λ _ c left. left };
}

impl<'a> OneReading for FolderDisk<'a> {
    ghost one_reading = { λ disk r s told _. absurd told };
}
