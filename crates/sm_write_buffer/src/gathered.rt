//! The disk that gathers.
ghost use Rattle.std.specs.Prelude.{◌≡◌, ◌<◌, ◌≤◌, ℕ, IsTrue, false, length, OnOk, OnErr};
ghost use Rattle.sm_disk.specs.Sight.{Image};
ghost use Rattle.sm_write_buffer.specs.Gathering.{Placed, AmongTold};

use crate::one_reading::OneReading;
use crate::past::Past;
use crate::pending::{Pending, held};
use crate::settle::settle;
use crate::waiting::Waiting;
use sm_disk::{Disk, DiskFailed};
use std::alloc::Global;

/// A disk over a disk, which gathers writes of a file into one, where each begins within those before it or behind
/// them. It is done below once the file is read, looked at, cut or synced, or once a write begins elsewhere. Who lets
/// the disk go loses what is pending, as a crash would.
///
/// Where something that is pending can't be done below, the call that wanted it done fails. It stays pending, and the
/// next such call tries it again. A cut takes away what is pending behind its end, so a write for which the disk has
/// no room can be taken back.
///
/// What a crash leaves of the disk below, within a call too, is among what this disk tells.
#[derive(Drop)]
pub struct Gathered<D: OneReading> {
    alloc: Global,
    disk: D,
    waiting: Waiting,
    past: Past<D, Waiting>,
    ghost placed: { Placed (D.sight disk) waiting },
    ghost among: { ∥ AmongTold (λ below. D.sight below) disk past.items ∥₁ },
}

impl<D: OneReading> Gathered<D> {
    ghost use Rattle.sm_disk.specs.Steps.{Holds, Torn, IsCut, CutOrNot, OnFile, Same, Follows, ReadsFollow, GoesOnTelling, Keeps};
    ghost use Rattle.sm_disk.specs.Faults.{HasCause};
    ghost use Rattle.sm_write_buffer.specs.Gathering.{IsBehind, pending_of, over, WasTold, TellsBelow};
    ghost use Rattle.sm_write_buffer.specs.declared.pending.Pending.TheVariants.{Nothing};

    /// A disk over this one, of which nothing is pending. It allocates what it gathers by this.
    pub fn new(alloc: Global, disk: D) -> Gathered<D>
        ensures disk { result.disk ≡ disk }
        ensures nothing { (file : ℕ) → pending_of result.waiting file ≡ Nothing }
    {
        Gathered {
            alloc,
            disk,
            waiting: Waiting::nothing(),
            past: Past::nothing(),
        }
    }

    /// The disk below. What is pending is lost, as by a crash.
    pub fn into_disk(self) -> D
        ensures disk { result ≡ self.disk }
        ensures told { ∥ TellsBelow (λ disk. D.sight disk) self.disk self.waiting self.past.items ∥₁ }
    {
        let Gathered { disk, .. } = self;
        disk
    }

    /// Does what is pending of a file. Where that fails it stays pending.
    fn flush(&mut self, file: u8) -> Result<(), DiskFailed>
        requires file { file < 3 }
        requires told { WasTold (λ disk. D.sight disk) self.old.disk self.old.past.items }
        ensures nothing { OnOk result (pending_of self.new.waiting file ≡ Nothing) }
        ensures stays { OnErr result (self.new.waiting ≡ self.old.waiting) }
        ensures reads { Keeps (over (D.sight self.old.disk) self.old.waiting)
            (over (D.sight self.new.disk) self.new.waiting) }
        ensures crash { Follows Same (over (D.sight self.old.disk) self.old.waiting).images
            (over (D.sight self.new.disk) self.new.waiting).images }
        ensures past { self.new.past ≡ self.old.past }
        ensures cause { HasCause (D.faults self.old.disk) (D.faults self.new.disk) result }
    {
        let pending = self.waiting.take(file);
        match settle(&mut self.disk, file, &pending) {
            Ok(()) => Ok(()),
            Err(failed) => {
                self.waiting.set(file, pending);
                Err(failed)
            }
        }
    }

    /// Lays a piece over the write that is pending of a file, if it begins in it or behind it, and there is memory.
    fn join(&mut self, file: u8, at: u64, piece: &[u8]) -> bool
        requires { file < 3 }
        ensures written { IsTrue result →
            ReadsFollow (OnFile file (Holds at piece.now)) (over (D.sight self.old.disk) self.old.waiting)
            (over (D.sight self.new.disk) self.new.waiting) }
        ensures crash { IsTrue result → Follows (OnFile file (Torn at (length piece.now)))
            (over (D.sight self.old.disk) self.old.waiting).images
            (over (D.sight self.new.disk) self.new.waiting).images }
        ensures left_reads { result ≡ false → Keeps (over (D.sight self.old.disk) self.old.waiting)
            (over (D.sight self.new.disk) self.new.waiting) }
        ensures left_crash { result ≡ false →
            Follows Same (over (D.sight self.old.disk) self.old.waiting).images
            (over (D.sight self.new.disk) self.new.waiting).images }
        ensures tells { GoesOnTelling (over (D.sight self.old.disk) self.old.waiting)
            (over (D.sight self.new.disk) self.new.waiting) }
        ensures disk { self.new.disk ≡ self.old.disk }
        ensures past { self.new.past ≡ self.old.past }
    {
        let (pending, joined) = self.waiting.take(file).join(at, piece);
        self.waiting.set(file, pending);
        joined
    }

    /// Writes a piece of a file of which nothing is pending: it is pending then, or where it is long or there is no
    /// memory, it is written below.
    fn begin(&mut self, file: u8, at: u64, piece: &[u8]) -> Result<(), DiskFailed>
        requires file { file < 3 }
        requires told { WasTold (λ disk. D.sight disk) self.old.disk self.old.past.items }
        requires nothing { pending_of self.old.waiting file ≡ Nothing }
        requires place { (s : Image) → (over (D.sight self.old.disk) self.old.waiting).reads s →
            at ≤ length (s file) }
        ensures written { OnOk result (ReadsFollow (OnFile file (Holds at piece.now))
            (over (D.sight self.old.disk) self.old.waiting) (over (D.sight self.new.disk) self.new.waiting)) }
        ensures tried { OnErr result (ReadsFollow (OnFile file (Torn at (length piece.now)))
            (over (D.sight self.old.disk) self.old.waiting) (over (D.sight self.new.disk) self.new.waiting)) }
        ensures crash { Follows (OnFile file (Torn at (length piece.now)))
            (over (D.sight self.old.disk) self.old.waiting).images
            (over (D.sight self.new.disk) self.new.waiting).images }
        ensures tells { GoesOnTelling (over (D.sight self.old.disk) self.old.waiting)
            (over (D.sight self.new.disk) self.new.waiting) }
        ensures past { self.new.past ≡ self.old.past }
        ensures cause { HasCause (D.faults self.old.disk) (D.faults self.new.disk) result }
    {
        match held(self.alloc, at, piece) {
            Some(write) => {
                self.waiting.set(file, write);
                Ok(())
            }
            None => self.disk.write_at(file, at, piece),
        }
    }

    /// Does what is pending of a file, unless a cut to a length takes it away.
    fn clear(&mut self, file: u8, end: u64) -> Result<(), DiskFailed>
        requires file { file < 3 }
        requires told { WasTold (λ disk. D.sight disk) self.old.disk self.old.past.items }
        ensures behind { OnOk result (IsBehind end (pending_of self.new.waiting file)) }
        ensures reads { Keeps (over (D.sight self.old.disk) self.old.waiting)
            (over (D.sight self.new.disk) self.new.waiting) }
        ensures crash { Follows Same (over (D.sight self.old.disk) self.old.waiting).images
            (over (D.sight self.new.disk) self.new.waiting).images }
        ensures past { self.new.past ≡ self.old.past }
        ensures cause { HasCause (D.faults self.old.disk) (D.faults self.new.disk) result }
    {
        if self.waiting.get(file).is_behind(end) {
            return Ok(());
        }
        self.flush(file)
    }

    /// A cut of a file is pending, and nothing else.
    fn hold_cut(&mut self, file: u8, end: u64) -> Result<(), DiskFailed>
        requires file { file < 3 }
        requires told { WasTold (λ disk. D.sight disk) self.old.disk self.old.past.items }
        requires place { (s : Image) → (over (D.sight self.old.disk) self.old.waiting).reads s →
            end ≤ length (s file) }
        ensures cut { OnOk result (ReadsFollow (OnFile file (IsCut end))
            (over (D.sight self.old.disk) self.old.waiting) (over (D.sight self.new.disk) self.new.waiting)) }
        ensures tried { OnErr result (Keeps (over (D.sight self.old.disk) self.old.waiting)
            (over (D.sight self.new.disk) self.new.waiting)) }
        ensures crash { Follows (OnFile file (CutOrNot end))
            (over (D.sight self.old.disk) self.old.waiting).images
            (over (D.sight self.new.disk) self.new.waiting).images }
        ensures below { (c : Image) → (D.sight self.new.disk).images c →
            (over (D.sight self.old.disk) self.old.waiting).images c }
        ensures tells { GoesOnTelling (over (D.sight self.old.disk) self.old.waiting)
            (over (D.sight self.new.disk) self.new.waiting) }
        ensures past { self.new.past ≡ self.old.past }
        ensures cause { HasCause (D.faults self.old.disk) (D.faults self.new.disk) result }
    {
        self.clear(file, end)?;
        self.waiting.set(file, Pending::Cut(end));
        Ok(())
    }
}

impl<D: OneReading> Disk for Gathered<D> {
    ghost use Rattle.sm_write_buffer.specs.Gathering.{gathered_sight};
    ghost use Rattle.sm_write_buffer.specs.Laws as laws;

    ghost sight = { λ g. gathered_sight (λ disk. D.sight disk) g.disk g.waiting g.past.items };

    ghost faults = { λ g. D.faults g.disk };

    fn length(&mut self, file: u8) -> Result<u64, DiskFailed> {
        self.past = self.past.noting(&self.disk, &self.waiting);
        self.flush(file)?;
        self.disk.length(file)
    }

    fn read(&mut self, file: u8, at: u64, buf: &mut [u8]) -> Result<(), DiskFailed> {
        self.past = self.past.noting(&self.disk, &self.waiting);
        self.flush(file)?;
        self.disk.read(file, at, buf)
    }

    fn write_at(&mut self, file: u8, at: u64, piece: &[u8]) -> Result<(), DiskFailed> {
        self.past = self.past.noting(&self.disk, &self.waiting);
        if self.join(file, at, piece) {
            return Ok(());
        }
        self.flush(file)?;
        self.begin(file, at, piece)
    }

    fn cut(&mut self, file: u8, end: u64) -> Result<(), DiskFailed> {
        self.past = self.past.noting(&self.disk, &self.waiting);
        self.hold_cut(file, end)?;
        self.flush(file)
    }

    fn sync(&mut self, file: u8) -> Result<(), DiskFailed> {
        self.past = self.past.noting(&self.disk, &self.waiting);
        self.flush(file)?;
        self.disk.sync(file)
    }

    ghost reads_image = { λ g. laws.reads_image (λ disk. D.sight disk) (λ disk. D.reads_image disk)
        g.disk g.waiting g.past.items };

    ghost counts_now = { λ g. laws.counts_now (λ disk. D.sight disk) g.disk g.waiting g.past.items };

    ghost only_now = { λ g. laws.only_now (λ disk. D.sight disk) g.disk g.waiting g.past.items };
}

impl<D: OneReading> OneReading for Gathered<D> {
    ghost use Rattle.sm_write_buffer.specs.Laws as laws;

    ghost one_reading = { λ g. laws.one_over (D.sight g.disk) (D.one_reading g.disk) g.waiting };
}
