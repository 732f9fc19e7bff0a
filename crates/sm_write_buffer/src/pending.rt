//! What is pending of a file.
ghost use Rattle.std.specs.Prelude.{◌≡◌, ◌+◌, ◌≤◌, false, IsTrue, IfSome, length};
ghost use Rattle.sm_write_buffer.specs.Gathering.{JoinsTo, IsBehind};
ghost use Rattle.sm_write_buffer.specs.declared.pending.Pending.TheVariants.{Write};

use crate::run::Run;
use std::alloc::Global;

/// How many bytes a write has at most that is pending: 1 MB.
pub const RUN_LIMIT: usize = 1_048_576;

/// What was asked of a file and isn't done yet.
#[derive(Drop)]
pub enum Pending {
    Nothing,
    /// Write a piece at a place.
    Write(u64, Run),
    /// Cut the file to a length.
    Cut(u64),
}

/// A piece as it is pending, if it isn't too long and there is memory.
pub fn held(alloc: Global, at: u64, piece: &[u8]) -> Option<Pending>
    ensures { IfSome result (λ pending. pending ≡ Write at piece.now) }
{
    if piece.len() > RUN_LIMIT {
        return None;
    }
    match Run::from_slice(alloc, piece) {
        Ok(piece) => Some(Pending::Write(at, piece)),
        Err(_) => None,
    }
}

/// Where a piece lies within the bytes from another place on, or behind them, if both are short enough together.
fn place_in(start: u64, run: &Run, at: u64, piece: &[u8]) -> Option<usize>
    ensures { IfSome result (λ place. (at ≡ start + place) × (place ≤ length run.now)
        × (place + length piece.now ≤ 1048576)) }
{
    if at < start || (run.len() as u64) < at - start {
        return None;
    }
    let place = (at - start) as usize;
    if RUN_LIMIT < place || RUN_LIMIT - place < piece.len() {
        return None;
    }
    Some(place)
}

impl Pending {
    /// What is pending with a piece laid over it, if that is a write in which the piece begins, or behind it, and there
    /// is memory; else what was pending.
    pub fn join(self, at: u64, piece: &[u8]) -> (Pending, bool)
        ensures joined { IsTrue result.1 → JoinsTo at piece.now self result.0 }
        ensures left { result.1 ≡ false → result.0 ≡ self }
    {
        match self {
            Pending::Write(start, run) => join_run(start, run, at, piece),
            Pending::Cut(end) => (Pending::Cut(end), false),
            Pending::Nothing => (Pending::Nothing, false),
        }
    }

    /// Whether a cut to a length undoes what is pending.
    pub fn is_behind(&self, end: u64) -> bool
        ensures { IsTrue result → IsBehind end self.now }
    {
        match self {
            Pending::Nothing => true,
            Pending::Write(at, _) => end <= *at,
            Pending::Cut(cut) => end <= *cut,
        }
    }
}

/// A write with a piece laid over it, if the piece begins in it, or behind it, and there is memory; else the write.
fn join_run(start: u64, run: Run, at: u64, piece: &[u8]) -> (Pending, bool)
    ensures joined { IsTrue result.1 → JoinsTo at piece.now (Write start run) result.0 }
    ensures left { result.1 ≡ false → result.0 ≡ Write start run }
{
    let mut run = run;
    let Some(place) = place_in(start, &run, at, piece) else {
        return (Pending::Write(start, run), false);
    };
    let joined = run.lay(place, piece).is_ok();
    (Pending::Write(start, run), joined)
}
