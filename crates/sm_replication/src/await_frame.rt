//! The wait for the bytes of a frame, however a source cuts them.
ghost use Rattle.std.specs.Prelude.{◌≡◌, ◌+◌, ◌≤◌, length, drop, Ok};
ghost use Rattle.std.specs.Io.KnownBytes.{IsAtEnd};
ghost use Rattle.sm_base.specs.Faults.{Rose};
ghost use Rattle.sm_http.specs.Ahead.{Moves};
ghost use Rattle.sm_record.specs.Fields.{count, long};
ghost use Rattle.sm_replication.specs.Extents.{extent, behind_tag, octets_extent, items_extent, list_extent, placed};
ghost use Rattle.sm_replication.specs.Waiting.{IsAwaited, IfWhole, OnAwaitedEnd, OnAwaitedFailed, StaysUnlessAwaitedFailed, Waits};
ghost use Rattle.sm_replication.specs.declared.input.TheConstants as limits;

use crate::FRAME_ENTRIES;
use crate::input::LIST_LIMIT;
use sm_http::{Ahead, More, await_bytes};
use sm_io::Source;

/// How the wait for a frame ended.
#[derive(Clone, Copy, Debug, PartialEq, Eq)]
pub enum Awaited {
    /// So many bytes are there.
    Whole(usize),
    /// A limit is passed, or no frame begins so.
    Over,
    /// The source has nothing left.
    End,
    Failed,
    Memory,
}

/// The length or the count at the front.
#[tactic(auto, unfolding(sm_record::specs::Fields::count))]
fn front_number(bytes: &[u8]) -> u32
    requires { 4 ≤ length bytes.now }
    ensures { count.read bytes.now ≡ Ok (result, drop 4 bytes.now) }
{
    let (front, _) = bytes.split_at(4);
    u32::from_be_bytes([front[0], front[1], front[2], front[3]])
}

/// The length or the count at a place.
#[tactic(auto, using(crate::proofs::WalkLemmas::read_at))]
fn number_at(bytes: &[u8], at: usize) -> u32
    requires { at + 4 ≤ length bytes.now }
    ensures { count.read (drop at bytes.now) ≡ Ok (result, drop (at + 4) bytes.now) }
{
    front_number(&bytes[at..])
}

/// Waits for bytes behind the length at a place, which may be so many with the length. The length is there.
#[tactic(auto, using(crate::proofs::AwaitLemmas::behind_over, crate::proofs::AwaitLemmas::behind_whole, crate::proofs::AwaitLemmas::behind_open, crate::proofs::AwaitLemmas::behind_there, sm_http::proofs::AheadLemmas::moves_none))]
fn await_behind<S: Source>(ahead: &mut Ahead, source: &mut S, at: usize, room: usize) -> Awaited
    requires { at + 4 ≤ length ahead.old }
    ensures within { IfWhole result (λ size. size ≤ room) }
    ensures moves { Moves ahead.old ahead.new (S.left source.old) (S.left source.new) }
    ensures awaited { IsAwaited (octets_extent room (drop at ahead.new)) result }
    ensures end { OnAwaitedEnd result (IsAtEnd (S.left source.new)) }
    ensures failed { OnAwaitedFailed result (Rose (S.source_faults source.old) (S.source_faults source.new)) }
    ensures later { S.source_faults source.old ≤ S.source_faults source.new }
    ensures no_other { StaysUnlessAwaitedFailed result (S.source_faults source.old) (S.source_faults source.new) }
    ensures beside { S.beside_source source.new ≡ S.beside_source source.old }
    ensures still { Waits (octets_extent room (drop at ahead.old)) source.old source.new }
{
    let size = number_at(ahead.as_slice(), at) as usize;
    if room < 4 + size {
        return Awaited::Over;
    }
    match await_bytes(ahead, source, at + 4 + size) {
        More::Got => Awaited::Whole(4 + size),
        More::End => Awaited::End,
        More::Failed => Awaited::Failed,
        More::Memory => Awaited::Memory,
    }
}

/// Waits for bytes and for their length at a place.
#[tactic(auto, using(crate::proofs::AwaitLemmas::octets_told, crate::proofs::WalkLemmas::octets_missing, crate::proofs::WalkLemmas::octets_length_there, sm_http::proofs::AheadLemmas::moves_more))]
fn await_octets<S: Source>(ahead: &mut Ahead, source: &mut S, at: usize, room: usize) -> Awaited
    requires begins { at ≤ length ahead.old }
    requires ends { at + room ≤ 13 + limits.LIST_LIMIT }
    ensures within { IfWhole result (λ size. size ≤ room) }
    ensures moves { Moves ahead.old ahead.new (S.left source.old) (S.left source.new) }
    ensures awaited { IsAwaited (octets_extent room (drop at ahead.new)) result }
    ensures end { OnAwaitedEnd result (IsAtEnd (S.left source.new)) }
    ensures failed { OnAwaitedFailed result (Rose (S.source_faults source.old) (S.source_faults source.new)) }
    ensures later { S.source_faults source.old ≤ S.source_faults source.new }
    ensures no_other { StaysUnlessAwaitedFailed result (S.source_faults source.old) (S.source_faults source.new) }
    ensures beside { S.beside_source source.new ≡ S.beside_source source.old }
    ensures still { Waits (octets_extent room (drop at ahead.old)) source.old source.new }
{
    match await_bytes(ahead, source, at + 4) {
        More::Got => await_behind(ahead, source, at, room),
        More::End => Awaited::End,
        More::Failed => Awaited::Failed,
        More::Memory => Awaited::Memory,
    }
}

/// Waits for so many items from a place on. No byte is looked at twice.
fn await_items<S: Source>(ahead: &mut Ahead, source: &mut S, start: usize, count: u32) -> Awaited
    requires begins { start ≤ length ahead.old }
    requires near { start ≤ 13 }
    ensures within { IfWhole result (λ size. size ≤ limits.LIST_LIMIT) }
    ensures moves { Moves ahead.old ahead.new (S.left source.old) (S.left source.new) }
    ensures awaited { IsAwaited (items_extent count limits.LIST_LIMIT (drop start ahead.new)) result }
    ensures end { OnAwaitedEnd result (IsAtEnd (S.left source.new)) }
    ensures failed { OnAwaitedFailed result (Rose (S.source_faults source.old) (S.source_faults source.new)) }
    ensures later { S.source_faults source.old ≤ S.source_faults source.new }
    ensures no_other { StaysUnlessAwaitedFailed result (S.source_faults source.old) (S.source_faults source.new) }
    ensures beside { S.beside_source source.new ≡ S.beside_source source.old }
    ensures still { Waits (items_extent count limits.LIST_LIMIT (drop start ahead.old)) source.old source.new }
{
    let mut passed = 0;
    let mut room = LIST_LIMIT as usize;
    for _ in 0..count {
        match await_octets(ahead, source, start + passed, room) {
            Awaited::Whole(used) => {
                passed += used;
                room -= used;
            }
            Awaited::Over => return Awaited::Over,
            Awaited::End => return Awaited::End,
            Awaited::Failed => return Awaited::Failed,
            Awaited::Memory => return Awaited::Memory,
        }
    }
    Awaited::Whole(passed)
}

/// Waits for the items of a list of at most so many, whose count is there at a place.
#[tactic(auto, using(crate::proofs::WalkLemmas::count_over, crate::proofs::AwaitLemmas::items_told, sm_http::proofs::AheadLemmas::moves_none))]
fn await_list<S: Source>(ahead: &mut Ahead, source: &mut S, at: usize, most: u32) -> Awaited
    requires begins { at + 4 ≤ length ahead.old }
    requires near { at ≤ 9 }
    ensures within { IfWhole result (λ size. size ≤ 4 + limits.LIST_LIMIT) }
    ensures moves { Moves ahead.old ahead.new (S.left source.old) (S.left source.new) }
    ensures awaited { IsAwaited (list_extent most (drop at ahead.new)) result }
    ensures end { OnAwaitedEnd result (IsAtEnd (S.left source.new)) }
    ensures failed { OnAwaitedFailed result (Rose (S.source_faults source.old) (S.source_faults source.new)) }
    ensures later { S.source_faults source.old ≤ S.source_faults source.new }
    ensures no_other { StaysUnlessAwaitedFailed result (S.source_faults source.old) (S.source_faults source.new) }
    ensures beside { S.beside_source source.new ≡ S.beside_source source.old }
    ensures still { Waits (list_extent most (drop at ahead.old)) source.old source.new }
{
    let count = number_at(ahead.as_slice(), at);
    if most < count {
        return Awaited::Over;
    }
    match await_items(ahead, source, at + 4, count) {
        Awaited::Whole(size) => Awaited::Whole(4 + size),
        Awaited::Over => Awaited::Over,
        Awaited::End => Awaited::End,
        Awaited::Failed => Awaited::Failed,
        Awaited::Memory => Awaited::Memory,
    }
}

/// Waits for a position and a list of at most so many items behind the first byte.
#[tactic(auto, using(crate::proofs::WalkLemmas::placed_list, crate::proofs::WalkLemmas::placed_missing, crate::proofs::WalkLemmas::placed_there, sm_http::proofs::AheadLemmas::moves_more))]
fn await_placed<S: Source>(ahead: &mut Ahead, source: &mut S, most: u32) -> Awaited
    requires { 1 ≤ length ahead.old }
    ensures within { IfWhole result (λ size. size ≤ 12 + limits.LIST_LIMIT) }
    ensures moves { Moves ahead.old ahead.new (S.left source.old) (S.left source.new) }
    ensures awaited { IsAwaited (placed most (long.read (drop 1 ahead.new))) result }
    ensures end { OnAwaitedEnd result (IsAtEnd (S.left source.new)) }
    ensures failed { OnAwaitedFailed result (Rose (S.source_faults source.old) (S.source_faults source.new)) }
    ensures later { S.source_faults source.old ≤ S.source_faults source.new }
    ensures no_other { StaysUnlessAwaitedFailed result (S.source_faults source.old) (S.source_faults source.new) }
    ensures beside { S.beside_source source.new ≡ S.beside_source source.old }
    ensures still { Waits (placed most (long.read (drop 1 ahead.old))) source.old source.new }
{
    match await_bytes(ahead, source, 13) {
        More::Got => match await_list(ahead, source, 9, most) {
            Awaited::Whole(size) => Awaited::Whole(8 + size),
            Awaited::Over => Awaited::Over,
            Awaited::End => Awaited::End,
            Awaited::Failed => Awaited::Failed,
            Awaited::Memory => Awaited::Memory,
        },
        More::End => Awaited::End,
        More::Failed => Awaited::Failed,
        More::Memory => Awaited::Memory,
    }
}

/// Waits for what stands behind the first byte, which is there.
#[tactic(auto, using(crate::proofs::AwaitLemmas::body_is, sm_http::proofs::AheadLemmas::moves_none))]
fn await_body<S: Source>(ahead: &mut Ahead, source: &mut S) -> Awaited
    requires { 1 ≤ length ahead.old }
    ensures within { IfWhole result (λ size. size ≤ 12 + limits.LIST_LIMIT) }
    ensures moves { Moves ahead.old ahead.new (S.left source.old) (S.left source.new) }
    ensures awaited { IsAwaited (behind_tag ahead.new) result }
    ensures end { OnAwaitedEnd result (IsAtEnd (S.left source.new)) }
    ensures failed { OnAwaitedFailed result (Rose (S.source_faults source.old) (S.source_faults source.new)) }
    ensures later { S.source_faults source.old ≤ S.source_faults source.new }
    ensures no_other { StaysUnlessAwaitedFailed result (S.source_faults source.old) (S.source_faults source.new) }
    ensures beside { S.beside_source source.new ≡ S.beside_source source.old }
    ensures still { Waits (behind_tag ahead.old) source.old source.new }
{
    match ahead.as_slice()[0] {
        1 => await_placed(ahead, source, FRAME_ENTRIES),
        2 => await_placed(ahead, source, u32::MAX),
        3 => await_octets(ahead, source, 1, 4 + LIST_LIMIT as usize),
        _ => Awaited::Over,
    }
}

/// Waits for the frame at the front: more bytes are taken until all of it is there, or a limit is passed.
#[tactic(auto, using(crate::proofs::WalkLemmas::nothing_open, crate::proofs::WalkLemmas::something, sm_http::proofs::AheadLemmas::moves_more))]
pub fn await_frame<S: Source>(ahead: &mut Ahead, source: &mut S) -> Awaited
    ensures moves { Moves ahead.old ahead.new (S.left source.old) (S.left source.new) }
    ensures awaited { IsAwaited (extent ahead.new) result }
    ensures end { OnAwaitedEnd result (IsAtEnd (S.left source.new)) }
    ensures failed { OnAwaitedFailed result (Rose (S.source_faults source.old) (S.source_faults source.new)) }
    ensures later { S.source_faults source.old ≤ S.source_faults source.new }
    ensures no_other { StaysUnlessAwaitedFailed result (S.source_faults source.old) (S.source_faults source.new) }
    ensures beside { S.beside_source source.new ≡ S.beside_source source.old }
    ensures still { Waits (extent ahead.old) source.old source.new }
{
    match await_bytes(ahead, source, 1) {
        More::Got => match await_body(ahead, source) {
            Awaited::Whole(size) => Awaited::Whole(1 + size),
            Awaited::Over => Awaited::Over,
            Awaited::End => Awaited::End,
            Awaited::Failed => Awaited::Failed,
            Awaited::Memory => Awaited::Memory,
        },
        More::End => Awaited::End,
        More::Failed => Awaited::Failed,
        More::Memory => Awaited::Memory,
    }
}
