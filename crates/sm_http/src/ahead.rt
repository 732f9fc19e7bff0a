//! The bytes that were read from a source and not used yet.
ghost use Rattle.std.specs.Prelude.{◌≡◌, ◌+◌, ◌<◌, ◌≤◌, [], length, take, drop, vec_len, OnOk};
ghost use Rattle.std.specs.Io.KnownBytes.{IsAtEnd};
ghost use Rattle.sm_base.specs.Faults.{Rose};
ghost use Rattle.sm_io.specs.Source.{IfGot, OnEnd, OnTakeFailed, StaysUnlessTakeFailed, Takes};
ghost use Rattle.sm_http.specs.Ahead.{Moves, OnMore, OnNoMore, OnMoreEnd, OnMoreFailed, StaysUnlessMoreFailed};

use sm_base::NoMemory;
use sm_io::{Source, Took};
use std::alloc::Global;
use std::marker::Model;

/// How much room there is at first.
const FIRST_ROOM: usize = 4_096;

/// What a take behind the bytes answers.
#[derive(Clone, Copy, Debug, PartialEq, Eq)]
pub enum More {
    /// At least one byte came.
    Got,
    /// The source has nothing left.
    End,
    Failed,
    /// There is no room, and no memory for more.
    Memory,
}

/// Bytes that were read and not used, which contracts see as their list. They stand in a buffer between two places, so
/// that what is left is not moved when a message is used.
#[derive(Drop)]
pub struct Ahead {
    buffer: Vec<u8>,
    start: usize,
    end: usize,
}

impl Model for Ahead {
    ghost use Rattle.std.specs.Prelude.{ℕ, List, ◌≤◌, take, drop, vec_len};

    ghost Value = { List ℕ };

    ghost view = { λ a. drop a.start (take a.end a.buffer.items) };

    ghost invariant = { λ a. (a.start ≤ a.end) × (a.end ≤ vec_len a.buffer) };
}

impl Ahead {
    /// No bytes. It takes no memory.
    pub fn empty(alloc: Global) -> Ahead
        ensures { result ≡ [] }
    {
        Ahead {
            buffer: Vec::new(alloc),
            start: 0,
            end: 0,
        }
    }

    pub fn as_slice(&self) -> &[u8]
        ensures { result.now ≡ self.now }
    {
        &self.buffer.as_slice()[self.start..self.end]
    }

    pub fn len(&self) -> usize
        ensures { result ≡ length self.now }
    {
        self.end - self.start
    }

    /// Leaves out so many bytes of the front.
    pub fn skip(&mut self, count: usize)
        requires { count ≤ length self.old }
        ensures { self.new ≡ drop count self.old }
    {
        self.start += count;
    }

    /// Takes once from a source, behind the bytes. Without memory nothing is taken.
    pub fn take_more<S: Source>(&mut self, source: &mut S) -> More
        ensures moves { Moves self.old self.new (S.left source.old) (S.left source.new) }
        ensures more { OnMore result (length self.old < length self.new) }
        ensures none { OnNoMore result (self.new ≡ self.old) }
        ensures end { OnMoreEnd result (IsAtEnd (S.left source.new)) }
        ensures failed { OnMoreFailed result (Rose (S.source_faults source.old) (S.source_faults source.new)) }
        ensures later { S.source_faults source.old ≤ S.source_faults source.new }
        ensures no_other { StaysUnlessMoreFailed result (S.source_faults source.old) (S.source_faults source.new) }
        ensures beside { S.beside_source source.new ≡ S.beside_source source.old }
    {
        let places = to_front(&mut self.buffer, self.start, self.end);
        self.start = places.0;
        self.end = places.1;
        if make_room(&mut self.buffer, self.end).is_err() {
            return More::Memory;
        }
        match take_behind(source, &mut self.buffer, self.end) {
            Took::Got(count) => {
                self.end += count;
                More::Got
            }
            Took::End => More::End,
            Took::Failed => More::Failed,
        }
    }
}

/// Moves the bytes between two places to the front, where there is no room behind them and some before them. The
/// places between which they stand then.
fn to_front(buffer: &mut Vec<u8>, start: usize, end: usize) -> (usize, usize)
    requires ordered { start ≤ end }
    requires inside { end ≤ vec_len buffer.old }
    ensures ordered { result.0 ≤ result.1 }
    ensures inside { result.1 ≤ vec_len buffer.new }
    ensures bytes { drop result.0 (take result.1 buffer.new.items) ≡ drop start (take end buffer.old.items) }
{
    if start == 0 || end < buffer.len() {
        return (start, end);
    }
    buffer.copy_within(start..end, 0);
    (0, end - start)
}

/// Makes room behind a place in a buffer, where there is none: as much again as there is.
fn make_room(buffer: &mut Vec<u8>, end: usize) -> Result<(), NoMemory>
    requires { end ≤ vec_len buffer.old }
    ensures room { OnOk result (end < vec_len buffer.new) }
    ensures inside { end ≤ vec_len buffer.new }
    ensures front { take end buffer.new.items ≡ take end buffer.old.items }
{
    let size = buffer.len();
    if end == size {
        buffer.resize(size + size.max(FIRST_ROOM), 0)?;
    }
    Ok(())
}

/// Takes once, to the bytes of a buffer from a place on.
fn take_behind<S: Source>(source: &mut S, buffer: &mut Vec<u8>, end: usize) -> Took
    requires { end < vec_len buffer.old }
    ensures some { IfGot result (λ n. 0 < n) }
    ensures inside { IfGot result (λ n. end + n ≤ vec_len buffer.new) }
    ensures len { vec_len buffer.new ≡ vec_len buffer.old }
    ensures front { take end buffer.new.items ≡ take end buffer.old.items }
    ensures bytes { Takes result (drop end buffer.new.items) (S.left source.old) (S.left source.new) }
    ensures end { OnEnd result (IsAtEnd (S.left source.old)) }
    ensures failed { OnTakeFailed result (Rose (S.source_faults source.old) (S.source_faults source.new)) }
    ensures later { S.source_faults source.old ≤ S.source_faults source.new }
    ensures no_other { StaysUnlessTakeFailed result (S.source_faults source.old) (S.source_faults source.new) }
    ensures beside { S.beside_source source.new ≡ S.beside_source source.old }
{
    source.take(&mut buffer[end..])
}
