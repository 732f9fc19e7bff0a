//! What a list of bodies holds, without the disk.
ghost use Rattle.std.specs.Prelude.{◌≡◌, ◌≤◌, ◌<◌, ◌+◌, ◌^◌, ℕ, length, take, drop, IfOk, Err};
ghost use Rattle.sm_journal.specs.Records.{size, place_behind};
ghost use Rattle.sm_journal.specs.declared.parse.Damage.{Damage};
ghost use Rattle.sm_store.specs.Held.{IsSnapshot, base_bodies};
ghost use Rattle.sm_store.specs.Openings.{LoadsUpTo};
ghost use Rattle.sm_store.specs.Loading as loading;

use crate::entries::EntriesRefused;
use sm_base::{List, NoMemory};
use sm_journal::{Damage, HEADER_SIZE, Records, record_size};
use sm_model::Entry;
use sm_record::{Base, BodySlice, DecodeRefused, Edition, decode, decode_rows};
use std::alloc::Global;

/// The least of the bytes that a body of rows begins with.
const FIRST_MARK: u8 = 0xf1;

/// The greatest of them.
const LAST_MARK: u8 = 0xf3;

/// What a disk holds when it is opened.
#[derive(Drop)]
pub struct Loaded {
    /// What the entries are counted from, if the file begins with it.
    pub base: Option<Base>,
    pub entries: List<Entry>,
    /// The file that the root names.
    pub file: u8,
    /// The place of the gate behind the base, which is that of the first entry.
    pub gate: u64,
}

/// Whether a body begins with one of the bytes of rows: it is one of a base, and no entry's. It takes no memory.
pub fn is_marked(body: &[u8]) -> bool
    ensures { result ≡ loading.is_marked body.now }
{
    match body {
        [first, ..] => FIRST_MARK <= *first && *first <= LAST_MARK,
        [] => false,
    }
}

/// How many of the first bodies are of rows.
fn marked_count(bodies: &Records) -> usize
    ensures { result ≡ loading.marked_count bodies.now }
{
    for index in 0..bodies.len() {
        if !is_marked(bodies.body(index)) {
            return index;
        }
    }
    bodies.len()
}

/// The place of the gate behind the records of the first bodies, so many.
fn place_behind(bodies: &Records, count: usize) -> u64
    requires within { count ≤ length bodies.now }
    requires fits { place_behind bodies.now < 2 ^ 64 }
    ensures { result ≡ place_behind (take count bodies.now) }
{
    let mut place = HEADER_SIZE;
    for index in 0..count {
        place += record_size(bodies.body(index));
    }
    place
}

/// The first bodies, so many. It takes memory for their places alone.
fn first_bodies<'a>(
    alloc: Global,
    bodies: &'a Records,
    count: usize,
) -> Result<Vec<BodySlice<'a>>, NoMemory>
    requires { count ≤ length bodies.now }
    ensures { IfOk result (λ front. front.items ≡ take count bodies.now) }
{
    let mut front = Vec::new(alloc);
    for index in 0..count {
        front.push(BodySlice::new(bodies.body(index)))?;
    }
    Ok(front)
}

/// The base that these bodies spell, all of them, or none where there are none.
fn base_in(
    alloc: Global,
    edition: Edition,
    bodies: &[BodySlice<'_>],
) -> Result<Option<Base>, EntriesRefused>
    ensures base { IfOk result (λ base. IsSnapshot edition base × (bodies.now ≡ base_bodies edition base)) }
    ensures damaged { (damage : Damage) → result ≡ Err (EntriesRefused.Damaged damage) →
        loading.IsNoSnapshot edition bodies.now damage.at damage.entry }
    ensures some { (damage : Damage) → result ≡ Err (EntriesRefused.Damaged damage) → 0 < length bodies.now }
{
    if bodies.is_empty() {
        return Ok(None);
    }
    match decode_rows(alloc, edition, bodies) {
        Ok(base) => Ok(Some(base)),
        Err(DecodeRefused::NoEntry(_)) => Err(EntriesRefused::Damaged(Damage {
            at: HEADER_SIZE,
            entry: 0,
        })),
        Err(DecodeRefused::Memory) => Err(EntriesRefused::Memory),
    }
}

/// The base that the first bodies spell, so many, or none where it is none of them.
fn base_before(
    alloc: Global,
    edition: Edition,
    bodies: &Records,
    count: usize,
) -> Result<Option<Base>, EntriesRefused>
    requires { count ≤ length bodies.now }
    ensures base { IfOk result (λ base. IsSnapshot edition base
        × (take count bodies.now ≡ base_bodies edition base)) }
    ensures damaged { (damage : Damage) → result ≡ Err (EntriesRefused.Damaged damage) →
        loading.IsNoSnapshot edition (take count bodies.now) damage.at damage.entry }
    ensures some { (damage : Damage) → result ≡ Err (EntriesRefused.Damaged damage) →
        0 < length (take count bodies.now) }
{
    match first_bodies(alloc, bodies, count) {
        Ok(front) => base_in(alloc, edition, front.as_slice()),
        Err(_) => Err(EntriesRefused::Memory),
    }
}

/// The entries that the bodies behind the first spell, so many, up to the first body that is no entry's spelling, and
/// where that is. The first of them has its gate at this place.
fn entries_behind(
    alloc: Global,
    edition: Edition,
    bodies: &Records,
    count: usize,
    gate: u64,
) -> Result<(List<Entry>, Option<Damage>), NoMemory>
    requires within { count ≤ length bodies.now }
    requires place { gate + size (drop count bodies.now) < 2 ^ 64 }
    ensures { IfOk result (λ found.
        loading.ReadsUpTo edition (drop count bodies.now) gate count found.0 found.1) }
{
    let mut list = Vec::new(alloc);
    let mut at = gate;
    for number in 0..bodies.len() - count {
        let bytes = bodies.body(count + number);
        match decode(alloc, edition, bytes) {
            Ok(entry) => list.push(entry)?,
            Err(DecodeRefused::NoEntry(_)) => {
                let entry = (count + number) as u64;
                return Ok((List::new(list), Some(Damage { at, entry })));
            }
            Err(DecodeRefused::Memory) => return Err(NoMemory),
        }
        at += record_size(bytes);
    }
    Ok((List::new(list), None))
}

/// What these bodies hold, in a file of this number: the first of them that are of rows a base, and the others entries,
/// up to the first that is no entry's spelling, and where that is.
pub fn load(
    alloc: Global,
    edition: Edition,
    file: u8,
    bodies: &Records,
) -> Result<(Loaded, Option<Damage>), EntriesRefused>
    requires { place_behind bodies.now < 2 ^ 64 }
    ensures loaded { IfOk result (λ found. LoadsUpTo edition file bodies.now found.0 found.1) }
    ensures damaged { (damage : Damage) → result ≡ Err (EntriesRefused.Damaged damage) →
        loading.IsNoBase edition bodies.now damage.at damage.entry }
{
    let count = marked_count(bodies);
    match base_before(alloc, edition, bodies, count) {
        Ok(base) => match load_behind(alloc, edition, file, base, bodies, count) {
            Ok(found) => Ok(found),
            Err(NoMemory) => Err(EntriesRefused::Memory),
        },
        Err(refused) => Err(refused),
    }
}

/// What bodies hold of which the first, so many, are a base, or none.
fn load_behind(
    alloc: Global,
    edition: Edition,
    file: u8,
    base: Option<Base>,
    bodies: &Records,
    count: usize,
) -> Result<(Loaded, Option<Damage>), NoMemory>
    requires count { count ≡ loading.marked_count bodies.now }
    requires place { place_behind bodies.now < 2 ^ 64 }
    requires base { IsSnapshot edition base × (take count bodies.now ≡ base_bodies edition base) }
    ensures { IfOk result (λ found. LoadsUpTo edition file bodies.now found.0 found.1) }
{
    let gate = place_behind(bodies, count);
    match entries_behind(alloc, edition, bodies, count, gate) {
        Ok((entries, damage)) => {
            let loaded = Loaded {
                base,
                entries,
                file,
                gate,
            };
            Ok((loaded, damage))
        }
        Err(NoMemory) => Err(NoMemory),
    }
}
