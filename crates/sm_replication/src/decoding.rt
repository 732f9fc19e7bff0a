//! Bytes that are decoded to a frame.
ghost use Rattle.std.specs.Prelude.{◌≤◌, ◌↔◌, IsTrue};
ghost use Rattle.sm_record.specs.Codec.{IsBytes};
ghost use Rattle.sm_replication.specs.Decoding.{IsOneEntry, AreEntries, IsMade, IsDecoded, parcel_seen};
ghost use Rattle.sm_replication.specs.Frames.{IsOneMessage};
ghost use Rattle.sm_replication.specs.Parcels as parcels;
ghost use Rattle.sm_replication.specs.Parcels.{listed_size};
ghost use Rattle.sm_replication.specs.declared.input.TheConstants as limits;

use crate::input::{Input, LIST_LIMIT};
pub use crate::parts::FrameRefused;
use crate::parts::{Parts, parts_in};
use crate::room::room_behind;
use crate::{FRAME_ENTRIES, Frame};
use sm_base::{Bytes, List};
use sm_http::{Front, field_room, front_of};
use sm_model::Entry;
use sm_record::{BodySlice, DecodeRefused, Edition, decode as decode_entry, decode_rows};
use std::alloc::Global;

/// Whether items are not too long with their lengths.
#[tactic(auto, using(crate::proofs::DecodeLemmas::short_all))]
fn is_short(items: &[BodySlice<'_>]) -> bool
    ensures { IsTrue result ↔ (listed_size items.now ≤ limits.LIST_LIMIT) }
{
    let mut left = LIST_LIMIT as usize;
    for item in items {
        match room_behind(left, item.len()) {
            Some(rest) => left = rest,
            None => return false,
        }
    }
    true
}

/// The entry that a body spells in the second format.
fn entry_of(alloc: Global, body: &BodySlice<'_>) -> Result<Entry, FrameRefused>
    ensures { IsOneEntry body.now result }
{
    match decode_entry(alloc, Edition::Second, body.as_slice()) {
        Ok(entry) => Ok(entry),
        Err(DecodeRefused::NoEntry(_)) => Err(FrameRefused::NoFrame),
        Err(DecodeRefused::Memory) => Err(FrameRefused::Memory),
    }
}

/// The entries that bodies spell in the second format.
#[tactic(auto, using(crate::proofs::DecodeLemmas::gathers_all))]
fn entries_of(alloc: Global, bodies: &[BodySlice<'_>]) -> Result<List<Entry>, FrameRefused>
    ensures { AreEntries bodies.now result }
{
    let mut entries = Vec::new(alloc);
    for body in bodies {
        let entry = entry_of(alloc, body)?;
        entries.push(entry)?;
    }
    Ok(List::new(entries))
}

/// The frame of entries from a position on.
#[tactic(auto, using(crate::proofs::DecodeLemmas::not_within, crate::proofs::DecodeLemmas::entries_made, crate::proofs::DecodeLemmas::entries_refused))]
fn entries_frame(alloc: Global, at: u64, bodies: &[BodySlice<'_>]) -> Result<Input, FrameRefused>
    ensures { IsMade (parcels.Entries at bodies.now) result }
{
    if bodies.len() > FRAME_ENTRIES as usize || !is_short(bodies) {
        return Err(FrameRefused::NoFrame);
    }
    let entries = entries_of(alloc, bodies)?;
    Ok(Input::Frame(Frame::Entries(at, entries)))
}

/// The frame of rows at a position.
#[tactic(auto, using(crate::proofs::DecodeLemmas::not_within, crate::proofs::DecodeLemmas::rows_made, crate::proofs::DecodeLemmas::rows_refused))]
fn rows_frame(alloc: Global, at: u64, bodies: &[BodySlice<'_>]) -> Result<Input, FrameRefused>
    ensures { IsMade (parcels.Rows at bodies.now) result }
{
    if !is_short(bodies) {
        return Err(FrameRefused::NoFrame);
    }
    match decode_rows(alloc, Edition::Second, bodies) {
        Ok(base) => Ok(Input::Frame(Frame::Rows(at, base))),
        Err(DecodeRefused::NoEntry(_)) => Err(FrameRefused::NoFrame),
        Err(DecodeRefused::Memory) => Err(FrameRefused::Memory),
    }
}

/// Whether bytes are one whole message, and no more.
pub fn is_one_message(bytes: &[u8]) -> bool
    ensures { IsTrue result ↔ IsOneMessage bytes.now }
{
    let mut room = field_room();
    match front_of(bytes, &mut room) {
        Front::Whole(_, used) => used == bytes.len(),
        Front::Bad(_) => false,
        Front::Partial => false,
    }
}

/// The frame of a message.
#[tactic(auto, using(crate::proofs::DecodeLemmas::not_within, crate::proofs::DecodeLemmas::message_made, crate::proofs::DecodeLemmas::message_refused))]
fn message_frame(alloc: Global, bytes: &[u8]) -> Result<Input, FrameRefused>
    ensures { IsMade (parcels.Message bytes.now) result }
{
    if bytes.len() > LIST_LIMIT as usize {
        return Err(FrameRefused::NoFrame);
    }
    if !is_one_message(bytes) {
        return Err(FrameRefused::NoFrame);
    }
    Ok(Input::Message(Bytes::from_slice(alloc, bytes)?))
}

/// The frame of these parts.
fn frame_of(alloc: Global, parts: &Parts<'_>) -> Result<Input, FrameRefused>
    ensures { IsMade (parcel_seen parts.now) result }
{
    match parts {
        Parts::Entries(at, bodies) => entries_frame(alloc, *at, bodies.as_slice()),
        Parts::Rows(at, bodies) => rows_frame(alloc, *at, bodies.as_slice()),
        Parts::Message(bytes) => message_frame(alloc, bytes),
    }
}

/// Each number of bytes is one.
fn note_bytes(bytes: &[u8])
    ensures { IsBytes bytes.now }
{}

/// The frame that all of the bytes are. Bytes have at most one, and what is decoded is spelled by them.
#[tactic(auto, using(crate::proofs::DecodeLemmas::decoded, crate::proofs::DecodeLemmas::undecoded_as))]
pub fn decode(alloc: Global, bytes: &[u8]) -> Result<Input, FrameRefused>
    ensures { IsDecoded bytes.now result }
{
    note_bytes(bytes);
    let parts = parts_in(alloc, bytes)?;
    frame_of(alloc, &parts)
}
