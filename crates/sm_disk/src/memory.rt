//! A disk in memory.
ghost use Rattle.std.specs.Prelude.{◌≡◌, ◌<◌, ◌≤◌, ◌+◌, ◌-◌, ◌^◌, ℕ, min, [], None, length, take, drop, IfOk, OnOk, OnErr};
ghost use Rattle.sm_disk.specs.Sight.{Image};
ghost use Rattle.sm_disk.specs.Calls.{replayed, crashed};

use crate::call::{Act, Call, count_synced, replay, replay_unsynced};
use crate::disk::{Disk, DiskFailed};
use sm_base::{Bytes, Fails, NoMemory};
use std::alloc::Global;

/// How many calls a new disk has room for.
const ROOM: usize = 16;

/// A disk that keeps what its files held when it was made, and every call that may change a file or what a crash
/// leaves of it. What a read gives is replayed from these, so it answers for every moment.
pub struct MemoryDisk {
    alloc: Global,
    journal_0: Bytes,
    journal_1: Bytes,
    root: Bytes,
    calls: Vec<Call>,
    fails: Fails,
    made: u64,
    faults: u64,
}

/// Who lets a disk go makes one call.
impl Drop for MemoryDisk {
    fn drop(self) {
        let MemoryDisk {
            alloc: _,
            journal_0: _,
            journal_1: _,
            root: _,
            calls: _,
            fails: _,
            made: _,
            faults: _,
        } = self;
    }
}

/// Fills the buffer with the bytes from a place on.
fn copy_from(bytes: &[u8], at: u64, buf: &mut [u8])
    requires { at + length buf.old ≤ length bytes.now }
    ensures { buf.new ≡ take (length buf.old) (drop at bytes.now) }
{
    let from = at as usize;
    buf.copy_from_slice(&bytes[from..from + buf.len()]);
}

impl MemoryDisk {
    ghost use Rattle.sm_disk.specs.Memory.{start_of, memory_sight, next_call, is_told_now, Counts, IsKept, IsMade};
    ghost use Rattle.sm_disk.specs.Calls.{acted, MayAct};
    ghost use Rattle.sm_disk.specs.Steps.{OnFile, Same, ReadsFollow, Goes, Keeps};
    ghost use Rattle.sm_disk.specs.Faults.{HasCause};

    /// A disk whose files hold these bytes, all of them synced.
    pub fn new(
        alloc: Global,
        journal_0: Bytes,
        journal_1: Bytes,
        root: Bytes,
        fails: Fails,
    ) -> Result<MemoryDisk, NoMemory>
        ensures { IfOk result (λ disk. IsMade journal_0 journal_1 root fails disk) }
    {
        Ok(MemoryDisk {
            alloc,
            journal_0,
            journal_1,
            root,
            calls: Vec::with_capacity(alloc, ROOM)?,
            fails,
            made: 0,
            faults: 0,
        })
    }

    /// One of the images of now, as a disk that is never told to fail. With fill 0 each file is as its last sync that
    /// succeeded left it, or as it was made; with 1 as it reads; and with any other fill as it reads, but for the
    /// bytes written since that sync, each of which is the fill. It allocates where this disk does.
    pub fn crash(&self, fill: u8) -> Result<MemoryDisk, NoMemory>
        ensures files { IfOk result (λ disk. (file : ℕ) → file < 3 →
            start_of disk file ≡ crashed fill file self.now.calls.items (start_of self.now file)) }
        ensures new { IfOk result (λ disk. (disk.calls.items ≡ []) × (disk.made ≡ 0) × (disk.faults ≡ 0)
            × (disk.fails.calls ≡ []) × (disk.fails.from ≡ None)) }
        ensures image { IfOk result (λ disk. (c : Image) × (memory_sight self.now).images c
            × ((file : ℕ) → file < 3 → start_of disk file ≡ c file)) }
    {
        let journal_0 = self.left_of(0, fill)?;
        let journal_1 = self.left_of(1, fill)?;
        let root = self.left_of(2, fill)?;
        let fails = Fails::never(self.alloc);
        MemoryDisk::new(self.alloc, journal_0, journal_1, root, fails)
    }

    /// What a crash leaves of a file with this fill.
    fn left_of(&self, file: u8, fill: u8) -> Result<Bytes, NoMemory>
        requires { file < 3 }
        ensures { IfOk result (λ bytes.
            bytes ≡ crashed fill file self.now.calls.items (start_of self.now file)) }
    {
        let mut bytes = self.start_content(file)?;
        let calls = self.calls.as_slice();
        let (synced, later) = calls.split_at(count_synced(file, calls));
        replay(&mut bytes, file, synced)?;
        replay_unsynced(self.alloc, &mut bytes, file, later, fill)?;
        Ok(Bytes::new(bytes))
    }

    /// Counts a call, and answers whether it is told to fail.
    fn begin(&mut self) -> bool
        ensures told { result ≡ is_told_now self.old }
        ensures made { self.new ≡ record self.old { made = next_call self.old } }
    {
        self.made = self.made.saturating_add(1);
        self.fails.is_told(self.made)
    }

    /// Counts a fault.
    fn fail(&mut self) -> DiskFailed
        ensures fault { self.new ≡ record self.old { faults = min (self.old.faults + 1) (2 ^ 64 - 1) } }
        ensures fits { self.old.faults < 2 ^ 64 }
    {
        self.faults = self.faults.saturating_add(1);
        DiskFailed
    }

    /// Counts a call on a file, and keeps it.
    fn keep(&mut self, file: u8, act: Act) -> Result<(), DiskFailed>
        ensures counts { Counts self.old self.new result }
        ensures kept { IsKept file act self.old self.new result }
        ensures cause { HasCause self.old.faults self.new.faults result }
    {
        let done = !self.begin();
        match self.calls.push(Call { file, done, act }) {
            Ok(()) if done => Ok(()),
            Ok(()) => Err(self.fail()),
            Err(_) => Err(self.fail()),
        }
    }

    /// Makes a call on a file that may change what a crash leaves of it.
    fn act(&mut self, file: u8, act: Act) -> Result<(), DiskFailed>
        ensures counts { Counts self.old self.new result }
        ensures kept { IsKept file act self.old self.new result }
        ensures done { OnOk result
            (ReadsFollow (OnFile file (λ old new. new ≡ acted act old)) (memory_sight self.old)
            (memory_sight self.new)) }
        ensures tried { OnErr result
            (ReadsFollow (OnFile file (MayAct act)) (memory_sight self.old) (memory_sight self.new)) }
        ensures crash { Goes (OnFile file (MayAct act)) (memory_sight self.old) (memory_sight self.new) }
        ensures cause { HasCause self.old.faults self.new.faults result }
    {
        self.keep(file, act)
    }

    /// What a file held when the disk was made.
    fn start_content(&self, file: u8) -> Result<Vec<u8>, NoMemory>
        requires { file < 3 }
        ensures { IfOk result (λ bytes. bytes.items ≡ start_of self.now file) }
    {
        let start = match file {
            0 => &self.journal_0,
            1 => &self.journal_1,
            _ => &self.root,
        };
        Ok(Vec::from_slice(self.alloc, start.as_slice())?)
    }

    /// What a file reads as now.
    fn content(&self, file: u8) -> Result<Vec<u8>, NoMemory>
        requires { file < 3 }
        ensures { IfOk result (λ bytes.
            bytes.items ≡ replayed file self.now.calls.items (start_of self.now file)) }
    {
        let mut bytes = self.start_content(file)?;
        replay(&mut bytes, file, self.calls.as_slice())?;
        Ok(bytes)
    }

    /// Makes a call that only looks at a file, and gives what the file reads as.
    fn look(&mut self, file: u8) -> Result<Vec<u8>, DiskFailed>
        requires { file < 3 }
        ensures counts { Counts self.old self.new result }
        ensures calls { self.new.calls ≡ self.old.calls }
        ensures reads { Keeps (memory_sight self.old) (memory_sight self.new) }
        ensures crash { Goes Same (memory_sight self.old) (memory_sight self.new) }
        ensures cause { HasCause self.old.faults self.new.faults result }
        ensures content { IfOk result (λ bytes.
            bytes.items ≡ replayed file self.old.calls.items (start_of self.old file)) }
    {
        if self.begin() {
            return Err(self.fail());
        }
        match self.content(file) {
            Ok(bytes) => Ok(bytes),
            Err(_) => Err(self.fail()),
        }
    }
}

impl Disk for MemoryDisk {
    ghost use Rattle.sm_disk.specs.Memory.{start_of, memory_sight, Counts, IsKept};
    ghost use Rattle.sm_disk.specs.declared.call.Act.TheVariants.{Write, Cut, Sync};
    ghost use Rattle.sm_disk.specs.Steps.{Holds, Torn, IsCut, CutOrNot, OnFile, Same, ReadsFollow, GoesOnTelling, Goes, Keeps, Synced};
    ghost use Rattle.sm_disk.specs.Faults.{HasCause};
    ghost use Rattle.sm_disk.specs.Laws as laws;

    ghost sight = { memory_sight };

    ghost faults = { λ disk. disk.faults };

    fn length(&mut self, file: u8) -> Result<u64, DiskFailed>
        requires { file < 3 }
        ensures length { IfOk result (λ n. (s : Image) → (memory_sight self.old).reads s →
            n ≡ length (s file)) }
        ensures reads { Keeps (memory_sight self.old) (memory_sight self.new) }
        ensures crash { Goes Same (memory_sight self.old) (memory_sight self.new) }
        ensures cause { HasCause self.old.faults self.new.faults result }

        ensures counts { Counts self.old self.new result }
        ensures calls { self.new.calls ≡ self.old.calls }
    {
        let bytes = self.look(file)?;
        Ok(bytes.len() as u64)
    }

    fn read(&mut self, file: u8, at: u64, buf: &mut [u8]) -> Result<(), DiskFailed>
        requires file { file < 3 }
        requires place { (s : Image) → (memory_sight self.old).reads s →
            at + length buf.old ≤ length (s file) }
        ensures bytes { OnOk result ((s : Image) → (memory_sight self.old).reads s →
            buf.new ≡ take (length buf.old) (drop at (s file))) }
        ensures reads { Keeps (memory_sight self.old) (memory_sight self.new) }
        ensures crash { Goes Same (memory_sight self.old) (memory_sight self.new) }
        ensures cause { HasCause self.old.faults self.new.faults result }

        ensures counts { Counts self.old self.new result }
        ensures calls { self.new.calls ≡ self.old.calls }
    {
        let bytes = self.look(file)?;
        copy_from(bytes.as_slice(), at, buf);
        Ok(())
    }

    fn write_at(&mut self, file: u8, at: u64, piece: &[u8]) -> Result<(), DiskFailed>
        requires file { file < 3 }
        requires place { (s : Image) → (memory_sight self.old).reads s → at ≤ length (s file) }
        ensures written { OnOk result
            (ReadsFollow (OnFile file (Holds at piece.now)) (memory_sight self.old) (memory_sight self.new)) }
        ensures tried { OnErr result
            (ReadsFollow (OnFile file (Torn at (length piece.now))) (memory_sight self.old)
            (memory_sight self.new)) }
        ensures crash { Goes (OnFile file (Torn at (length piece.now)))
            (memory_sight self.old) (memory_sight self.new) }
        ensures tells { GoesOnTelling (memory_sight self.old) (memory_sight self.new) }
        ensures cause { HasCause self.old.faults self.new.faults result }

        ensures counts { Counts self.old self.new result }
        ensures kept { IsKept file (Write at piece.now) self.old self.new result }
    {
        match Bytes::from_slice(self.alloc, piece) {
            Ok(piece) => self.act(file, Act::Write(at, piece)),
            Err(_) => {
                self.begin();
                Err(self.fail())
            }
        }
    }

    fn cut(&mut self, file: u8, end: u64) -> Result<(), DiskFailed>
        requires file { file < 3 }
        requires place { (s : Image) → (memory_sight self.old).reads s → end ≤ length (s file) }
        ensures cut { OnOk result
            (ReadsFollow (OnFile file (IsCut end)) (memory_sight self.old) (memory_sight self.new)) }
        ensures tried { OnErr result
            (ReadsFollow (OnFile file (CutOrNot end)) (memory_sight self.old) (memory_sight self.new)) }
        ensures crash { Goes (OnFile file (CutOrNot end)) (memory_sight self.old) (memory_sight self.new) }
        ensures tells { GoesOnTelling (memory_sight self.old) (memory_sight self.new) }
        ensures cause { HasCause self.old.faults self.new.faults result }

        ensures counts { Counts self.old self.new result }
        ensures kept { IsKept file (Cut end) self.old self.new result }
    {
        self.act(file, Act::Cut(end))
    }

    fn sync(&mut self, file: u8) -> Result<(), DiskFailed>
        requires { file < 3 }
        ensures synced { OnOk result (Synced file (memory_sight self.new)) }
        ensures reads { Keeps (memory_sight self.old) (memory_sight self.new) }
        ensures crash { Goes Same (memory_sight self.old) (memory_sight self.new) }
        ensures cause { HasCause self.old.faults self.new.faults result }

        ensures counts { Counts self.old self.new result }
        ensures kept { IsKept file Sync self.old self.new result }
    {
        self.act(file, Act::Sync)
    }

    ghost reads_image = { λ disk. laws.reads_image (start_of disk) disk.calls.items };

    ghost counts_now = { λ disk. laws.counts_now (start_of disk) disk.calls.items };

    ghost only_now = { λ disk. laws.only_now (start_of disk) disk.calls.items };
}
