//! Frames as bytes.
ghost use Rattle.std.specs.Prelude.{◌≡◌, ◌≤◌, ◌∷◌, ◌++◌, ◌<◌, ◌^◌, ◌↔◌, IfOk, IfErr, IsTrue, OnOk, length, flat_map};
ghost use Rattle.sm_record.specs.Fields.{octets, listed};
ghost use Rattle.sm_record.specs.Snapshots.{HasSnapshot};
ghost use Rattle.sm_record.specs.declared.edition.Edition.TheVariants.{Second};
ghost use Rattle.sm_replication.specs.Spelled.{AreSpelled, HasParts};
ghost use Rattle.sm_replication.specs.declared.frame.Frame.TheVariants as frames;
ghost use Rattle.sm_replication.specs.Outputs.{IsEncoded, IfTooLong};
ghost use Rattle.sm_replication.specs.Parcels.{bodies_at, listed_size};
ghost use Rattle.sm_replication.specs.declared.input.TheConstants as limits;

use crate::bodies::{entry_bodies, row_bodies};
use crate::input::LIST_LIMIT;
use crate::room::room_behind;
use crate::{FRAME_ENTRIES, Frame};
use sm_base::{Bytes, NoMemory};
use sm_model::Entry;
use sm_record::Base;
use std::alloc::{AllocError, AllocFailed, Global};
use std::error::Error;
use std::fmt;

/// Why a frame was not encoded.
#[derive(Clone, Copy, Debug, PartialEq, Eq)]
pub enum EncodeRefused {
    /// It has too many entries, or its list is too long.
    TooLong,
    Memory,
}

impl fmt::Display for EncodeRefused {
    fn fmt<W: fmt::Write>(&self, f: &mut fmt::Formatter<W>) -> fmt::Result {
        match self {
            EncodeRefused::TooLong => f.write_str("a frame is too long"),
            EncodeRefused::Memory => f.write_str("out of memory"),
        }
    }
}

impl Error for EncodeRefused {}

impl From<NoMemory> for EncodeRefused {
    ghost use Rattle.std.specs.Prelude.{◌≡◌};
    ghost use Rattle.sm_replication.specs.declared.encoding.EncodeRefused.TheVariants.{Memory};

    ghost from_gives = { λ _ refused. refused ≡ Memory };

    fn from(_error: NoMemory) -> EncodeRefused {
        EncodeRefused::Memory
    }
}

impl From<AllocError> for EncodeRefused {
    ghost use Rattle.std.specs.Prelude.{◌≡◌};
    ghost use Rattle.sm_replication.specs.declared.encoding.EncodeRefused.TheVariants.{Memory};

    ghost from_gives = { λ _ refused. refused ≡ Memory };

    fn from(_error: AllocError) -> EncodeRefused {
        EncodeRefused::Memory
    }
}

impl<T: Drop> From<AllocFailed<T>> for EncodeRefused {
    ghost use Rattle.std.specs.Prelude.{◌≡◌};
    ghost use Rattle.sm_replication.specs.declared.encoding.EncodeRefused.TheVariants.{Memory};

    ghost from_gives = { λ _ refused. refused ≡ Memory };

    fn from(_error: AllocFailed<T>) -> EncodeRefused {
        EncodeRefused::Memory
    }
}

/// Whether bodies are not too long with their lengths.
#[tactic(auto, using(crate::proofs::DecodeLemmas::short_all))]
fn is_short(bodies: &[Bytes]) -> bool
    ensures { IsTrue result ↔ (listed_size bodies.now ≤ limits.LIST_LIMIT) }
{
    let mut left = LIST_LIMIT as usize;
    for body in bodies {
        match room_behind(left, body.len()) {
            Some(rest) => left = rest,
            None => return false,
        }
    }
    true
}

/// Writes bytes behind their length.
#[tactic(auto, using(std::proofs::lemmas::List::append_assoc), unfolding(sm_record::specs::Fields::octets, sm_record::specs::Fields::count))]
pub(crate) fn put_octets(out: &mut Vec<u8>, bytes: &[u8]) -> Result<(), NoMemory>
    requires { length bytes.now < 2 ^ 32 }
    ensures { OnOk result (out.new.items ≡ out.old.items ++ octets.spell bytes.now) }
{
    let length = bytes.len() as u32;
    out.extend_from_slice(&length.to_be_bytes())?;
    out.extend_from_slice(bytes)?;
    Ok(())
}

/// Writes bodies, each behind its length.
#[tactic(auto, using(crate::proofs::EncodeLemmas::item_short, sm_record::proofs::ReadingLemmas::one_more_written, std::proofs::lemmas::List::append_assoc, std::proofs::lemmas::List::take_all))]
fn put_bodies(out: &mut Vec<u8>, bodies: &[Bytes]) -> Result<(), NoMemory>
    requires { listed_size bodies.now ≤ limits.LIST_LIMIT }
    ensures { OnOk result (out.new.items ≡ out.old.items ++ flat_map octets.spell bodies.now) }
{
    for body in bodies {
        put_octets(out, body.as_slice())?;
    }
    Ok(())
}

/// Writes a list of bodies, behind their count.
#[tactic(auto, using(std::proofs::lemmas::List::append_assoc, crate::proofs::EncodeLemmas::count_short), unfolding(sm_record::specs::Fields::listed, sm_record::specs::Fields::count))]
fn put_list(out: &mut Vec<u8>, bodies: &[Bytes]) -> Result<(), NoMemory>
    requires { listed_size bodies.now ≤ limits.LIST_LIMIT }
    ensures { OnOk result (out.new.items ≡ out.old.items ++ (listed octets).spell bodies.now) }
{
    let count = bodies.len() as u32;
    out.extend_from_slice(&count.to_be_bytes())?;
    put_bodies(out, bodies)?;
    Ok(())
}

/// The bytes of a frame of this kind, with bodies that are not too long.
#[tactic(auto, using(std::proofs::lemmas::List::append_assoc), unfolding(sm_record::specs::Fields::long))]
fn list_bytes(alloc: Global, kind: u8, at: u64, bodies: &[Bytes]) -> Result<Bytes, NoMemory>
    requires { listed_size bodies.now ≤ limits.LIST_LIMIT }
    ensures { IfOk result (λ bytes. bytes ≡ kind ∷ bodies_at.spell (at, bodies.now)) }
{
    let mut out = Vec::new(alloc);
    out.push(kind)?;
    out.extend_from_slice(&at.to_be_bytes())?;
    put_list(&mut out, bodies)?;
    Ok(Bytes::new(out))
}

/// The bytes of a frame of this kind with these bodies, where they are not too long.
fn encode_list(alloc: Global, kind: u8, at: u64, bodies: &[Bytes]) -> Result<Bytes, EncodeRefused>
    ensures bytes { IfOk result (λ bytes. bytes ≡ kind ∷ bodies_at.spell (at, bodies.now)) }
    ensures within { IfOk result (λ _. listed_size bodies.now ≤ limits.LIST_LIMIT) }
    ensures long { IfErr result (IfTooLong (listed_size bodies.now ≤ limits.LIST_LIMIT → ⊥)) }
{
    if !is_short(bodies) {
        return Err(EncodeRefused::TooLong);
    }
    Ok(list_bytes(alloc, kind, at, bodies)?)
}

/// The bytes of a frame of entries.
fn encode_entries(alloc: Global, at: u64, entries: &[Entry]) -> Result<Bytes, EncodeRefused>
    requires { AreSpelled entries.now }
    ensures { IsEncoded (frames.Entries at entries.now) result }
{
    if entries.len() > FRAME_ENTRIES as usize {
        return Err(EncodeRefused::TooLong);
    }
    let bodies = entry_bodies(alloc, entries)?;
    encode_list(alloc, 1, at, bodies.as_slice())
}

/// The bytes of a frame of rows.
fn encode_rows(alloc: Global, at: u64, base: &Base) -> Result<Bytes, EncodeRefused>
    requires { HasSnapshot Second base.now }
    ensures { IsEncoded (frames.Rows at base.now) result }
{
    let bodies = row_bodies(alloc, base)?;
    encode_list(alloc, 2, at, bodies.as_slice())
}

/// The bytes of a frame. Its entries, or its rows, have a spelling in the second format.
pub fn encode(alloc: Global, frame: &Frame) -> Result<Bytes, EncodeRefused>
    requires { HasParts frame.now }
    ensures { IsEncoded frame.now result }
{
    match frame {
        Frame::Entries(at, entries) => encode_entries(alloc, *at, entries.as_slice()),
        Frame::Rows(at, base) => encode_rows(alloc, *at, base),
    }
}
