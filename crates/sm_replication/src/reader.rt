//! The frames of a source, one after the other, however it cuts its bytes.
ghost use Rattle.std.specs.Prelude.{◌≡◌, ◌≤◌, List, [], length, None, IfSome, IfNone};
ghost use Rattle.std.specs.Io.KnownBytes.{IsAtEnd};
ghost use Rattle.sm_base.specs.Faults.{Rose};
ghost use Rattle.sm_replication.specs.Extents.{extent};
ghost use Rattle.sm_replication.specs.Reading.{stopped, IsPartial, Finds, FindsMore, Reads, OnStreamEnd, OnReadFault, StaysUnlessReadFault, OnStopEnd, OnStopFault, StaysUnlessFoundFault, IfStopped};
ghost use Rattle.sm_replication.specs.declared.extent.Extent.TheVariants.{Whole};

use crate::await_frame::{Awaited, await_frame};
use crate::decoding::{FrameRefused, decode};
use crate::input::Input;
use sm_http::Ahead;
use sm_io::Source;
use std::alloc::Global;
use std::marker::Model;

/// Why a reader gives no more frames.
#[derive(Clone, Copy, Debug, PartialEq, Eq)]
pub enum Stop {
    Bad(u64),
    End,
    Cut(u64),
    ReadFault,
    Memory,
}

/// What a reader answers.
#[derive(Drop)]
pub enum NextFrame {
    Input(Input),
    /// No frame begins at the byte of this number: a limit is passed, or what is whole by its lengths is none.
    Bad(u64),
    /// The stream ended after a whole frame, or before the first.
    End,
    /// The stream ended with so many bytes after the last whole frame.
    Cut(u64),
    /// The source failed.
    ReadFault,
    Memory,
}

/// What a search for the next frame gives.
#[derive(Drop)]
enum Found {
    /// The frame, which takes so many bytes.
    Input(Input, usize),
    /// No frame, and why.
    Stop(Stop),
}

/// The answer of a reader that stopped.
fn stopped(stop: Stop) -> NextFrame
    ensures { result ≡ stopped stop }
{
    match stop {
        Stop::Bad(at) => NextFrame::Bad(at),
        Stop::End => NextFrame::End,
        Stop::Cut(count) => NextFrame::Cut(count),
        Stop::ReadFault => NextFrame::ReadFault,
        Stop::Memory => NextFrame::Memory,
    }
}

/// Takes the frame at the front, which is whole by its lengths and has so many bytes. Where it is none, and without
/// memory, all bytes stay.
#[tactic(auto, using(crate::proofs::ReaderLemmas::whole_there, crate::proofs::ReaderLemmas::found_input, crate::proofs::ReaderLemmas::whole_bad))]
fn take_frame(alloc: Global, ahead: &mut Ahead, at: u64, size: usize) -> Found
    requires { extent ahead.old ≡ Whole size }
    ensures found { Finds ahead.old at result ahead.new }
    ensures end { IfStopped result (λ why. OnStopEnd why ⊥) }
    ensures failed { IfStopped result (λ why. OnStopFault why ⊥) }
{
    match decode(alloc, &ahead.as_slice()[..size]) {
        Ok(input) => {
            ahead.skip(size);
            Found::Input(input, size)
        }
        Err(FrameRefused::NoFrame) => Found::Stop(Stop::Bad(at)),
        Err(FrameRefused::Memory) => Found::Stop(Stop::Memory),
    }
}

/// The next frame: more bytes are taken until it is there.
#[tactic(auto, using(crate::proofs::ReaderLemmas::found_later, crate::proofs::ReaderLemmas::found_stop, crate::proofs::ReaderLemmas::over_bad, crate::proofs::ReaderLemmas::never_ends, crate::proofs::ReaderLemmas::never_fails, crate::proofs::ReaderLemmas::found_stays))]
fn find_frame<S: Source>(alloc: Global, ahead: &mut Ahead, at: u64, source: &mut S) -> Found
    ensures found { FindsMore ahead.old at result ahead.new (S.left source.old) (S.left source.new) }
    ensures end { IfStopped result (λ why. OnStopEnd why (IsAtEnd (S.left source.new))) }
    ensures failed { IfStopped result (λ why. OnStopFault why
        (Rose (S.source_faults source.old) (S.source_faults source.new))) }
    ensures later { S.source_faults source.old ≤ S.source_faults source.new }
    ensures no_other { StaysUnlessFoundFault result (S.source_faults source.old) (S.source_faults source.new) }
    ensures beside { S.beside_source source.new ≡ S.beside_source source.old }
    ensures still { (IsPartial ahead.old → ⊥) → source.new ≡ source.old }
{
    match await_frame(ahead, source) {
        Awaited::Whole(size) => take_frame(alloc, ahead, at, size),
        Awaited::Over => Found::Stop(Stop::Bad(at)),
        Awaited::End => {
            if ahead.len() == 0 {
                Found::Stop(Stop::End)
            } else {
                Found::Stop(Stop::Cut(ahead.len() as u64))
            }
        }
        Awaited::Failed => Found::Stop(Stop::ReadFault),
        Awaited::Memory => Found::Stop(Stop::Memory),
    }
}

/// Reads the frames of a source. What it read and did not use stands ahead.
#[derive(Drop)]
pub struct FrameReader {
    alloc: Global,
    ahead: Ahead,
    at: u64,
    ended: Option<Stop>,
}

impl Model for FrameReader {
    ghost use Rattle.sm_replication.specs.Reading.{FrameReaderState};

    ghost Value = { FrameReaderState };

    ghost view = { λ r. record { ahead = r.ahead; at = r.at; ended = r.ended } };
}

impl FrameReader {
    /// A reader that has read nothing. It takes no memory.
    pub fn new(alloc: Global) -> FrameReader
        ensures { result ≡ record { ahead = []; at = 0; ended = None } }
    {
        FrameReader {
            alloc,
            ahead: Ahead::empty(alloc),
            at: 0,
            ended: None,
        }
    }

    /// The next frame of the source, or why there is none. It takes only where no frame is whole and no limit is
    /// passed. After any answer but a frame it answers that again, and takes nothing.
    #[tactic(auto, using(crate::proofs::ReaderLemmas::reads_stop, crate::proofs::ReaderLemmas::reads_input, crate::proofs::ReaderLemmas::stop_answered, crate::proofs::ReaderLemmas::stop_repeated))]
    pub fn next<S: Source>(&mut self, source: &mut S) -> NextFrame
        ensures reads { Reads self.old result self.new (S.left source.old) (S.left source.new) }
        ensures again { IfSome self.old.ended (λ why. source.new ≡ source.old) }
        ensures end { IfNone self.old.ended (OnStreamEnd result (IsAtEnd (S.left source.new))) }
        ensures failed { IfNone self.old.ended (OnReadFault result
            (Rose (S.source_faults source.old) (S.source_faults source.new))) }
        ensures later { S.source_faults source.old ≤ S.source_faults source.new }
        ensures no_other { StaysUnlessReadFault result (S.source_faults source.old) (S.source_faults source.new) }
        ensures beside { S.beside_source source.new ≡ S.beside_source source.old }
        ensures waits { (IsPartial self.old.ahead → ⊥) → source.new ≡ source.old }
    {
        match self.ended {
            Some(why) => stopped(why),
            None => match find_frame(self.alloc, &mut self.ahead, self.at, source) {
                Found::Input(input, used) => {
                    self.at = self.at.saturating_add(used as u64);
                    NextFrame::Input(input)
                }
                Found::Stop(why) => {
                    self.ended = Some(why);
                    stopped(why)
                }
            },
        }
    }
}
