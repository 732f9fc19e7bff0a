//! The parts of a frame where they stand in its bytes.
ghost use Rattle.std.specs.Prelude.{◌≡◌, IfOk};
ghost use Rattle.sm_record.specs.Codec.{read_items};
ghost use Rattle.sm_record.specs.Fields.{count, long, octets, listed};
ghost use Rattle.sm_replication.specs.Decoding.{ReadsAs, parcel_seen};
ghost use Rattle.sm_replication.specs.Parcels.{bodies_at, parcel, parcel_in};

use sm_base::{List, NoMemory};
use sm_record::BodySlice;
use std::alloc::{AllocError, AllocFailed, Global};
use std::error::Error;
use std::fmt;

/// Why bytes were not decoded as a frame.
#[derive(Clone, Copy, Debug, PartialEq, Eq)]
pub enum FrameRefused {
    /// They are no frame's, or more than one frame's.
    NoFrame,
    Memory,
}

impl fmt::Display for FrameRefused {
    fn fmt<W: fmt::Write>(&self, f: &mut fmt::Formatter<W>) -> fmt::Result {
        match self {
            FrameRefused::NoFrame => f.write_str("no frame"),
            FrameRefused::Memory => f.write_str("out of memory"),
        }
    }
}

impl Error for FrameRefused {}

impl From<NoMemory> for FrameRefused {
    ghost use Rattle.std.specs.Prelude.{◌≡◌};
    ghost use Rattle.sm_replication.specs.declared.parts.FrameRefused.TheVariants.{Memory};

    ghost from_gives = { λ _ refused. refused ≡ Memory };

    fn from(_error: NoMemory) -> FrameRefused {
        FrameRefused::Memory
    }
}

impl From<AllocError> for FrameRefused {
    ghost use Rattle.std.specs.Prelude.{◌≡◌};
    ghost use Rattle.sm_replication.specs.declared.parts.FrameRefused.TheVariants.{Memory};

    ghost from_gives = { λ _ refused. refused ≡ Memory };

    fn from(_error: AllocError) -> FrameRefused {
        FrameRefused::Memory
    }
}

impl<T: Drop> From<AllocFailed<T>> for FrameRefused {
    ghost use Rattle.std.specs.Prelude.{◌≡◌};
    ghost use Rattle.sm_replication.specs.declared.parts.FrameRefused.TheVariants.{Memory};

    ghost from_gives = { λ _ refused. refused ≡ Memory };

    fn from(_error: AllocFailed<T>) -> FrameRefused {
        FrameRefused::Memory
    }
}

/// The parts of a frame where they stand: a position and bodies, or a message.
#[derive(Drop)]
pub enum Parts<'a> {
    Entries(u64, List<BodySlice<'a>>),
    Rows(u64, List<BodySlice<'a>>),
    Message(&'a [u8]),
}

/// A length or a count.
#[tactic(auto, unfolding(sm_record::specs::Fields::count))]
fn count_at(bytes: &[u8]) -> Result<(u32, &[u8]), FrameRefused>
    ensures { ReadsAs (λ x. (x.0, x.1.now)) result (count.read bytes.now) }
{
    if bytes.len() < 4 {
        return Err(FrameRefused::NoFrame);
    }
    let (front, rest) = bytes.split_at(4);
    let number = u32::from_be_bytes([front[0], front[1], front[2], front[3]]);
    Ok((number, rest))
}

/// A position.
#[tactic(auto, unfolding(sm_record::specs::Fields::long))]
fn long_at(bytes: &[u8]) -> Result<(u64, &[u8]), FrameRefused>
    ensures { ReadsAs (λ x. (x.0, x.1.now)) result (long.read bytes.now) }
{
    if bytes.len() < 8 {
        return Err(FrameRefused::NoFrame);
    }
    let (front, rest) = bytes.split_at(8);
    let number = u64::from_be_bytes([
        front[0], front[1], front[2], front[3], front[4], front[5], front[6], front[7],
    ]);
    Ok((number, rest))
}

/// Bytes behind their length.
#[tactic(auto, unfolding(sm_record::specs::Fields::octets))]
fn octets_at(bytes: &[u8]) -> Result<(&[u8], &[u8]), FrameRefused>
    ensures { ReadsAs (λ x. (x.0.now, x.1.now)) result (octets.read bytes.now) }
{
    let (length, rest) = count_at(bytes)?;
    let length = length as usize;
    if rest.len() < length {
        return Err(FrameRefused::NoFrame);
    }
    let (front, behind) = rest.split_at(length);
    Ok((front, behind))
}

/// So many items. Memory is taken for those that are there alone.
fn items_at<'a>(
    alloc: Global,
    count: u32,
    bytes: &'a [u8],
) -> Result<(Vec<BodySlice<'a>>, &'a [u8]), FrameRefused>
    ensures { ReadsAs (λ x. (x.0.items, x.1.now)) result (read_items octets count bytes.now) }
{
    let mut items = Vec::new(alloc);
    let mut rest = bytes;
    for _ in 0..count {
        let (item, behind) = octets_at(rest)?;
        items.push(BodySlice::new(item))?;
        rest = behind;
    }
    Ok((items, rest))
}

/// A list of bodies.
#[tactic(auto, unfolding(sm_record::specs::Fields::listed))]
fn list_at<'a>(
    alloc: Global,
    bytes: &'a [u8],
) -> Result<(List<BodySlice<'a>>, &'a [u8]), FrameRefused>
    ensures { ReadsAs (λ x. (x.0, x.1.now)) result ((listed octets).read bytes.now) }
{
    let (count, rest) = count_at(bytes)?;
    let (items, behind) = items_at(alloc, count, rest)?;
    Ok((List::new(items), behind))
}

/// A position and a list of bodies.
fn bodies_at<'a>(
    alloc: Global,
    bytes: &'a [u8],
) -> Result<((u64, List<BodySlice<'a>>), &'a [u8]), FrameRefused>
    ensures { ReadsAs (λ x. ((x.0.0, x.0.1), x.1.now)) result (bodies_at.read bytes.now) }
{
    let (at, rest) = long_at(bytes)?;
    let (bodies, behind) = list_at(alloc, rest)?;
    Ok(((at, bodies), behind))
}

/// The parts of the frame at the front, and the bytes behind it.
#[tactic(auto, unfolding(crate::specs::Parcels::parcel))]
fn parts_at<'a>(alloc: Global, bytes: &'a [u8]) -> Result<(Parts<'a>, &'a [u8]), FrameRefused>
    ensures { ReadsAs (λ x. (parcel_seen x.0, x.1.now)) result (parcel.read bytes.now) }
{
    match bytes {
        [1, rest @ ..] => {
            let ((at, bodies), behind) = bodies_at(alloc, rest)?;
            Ok((Parts::Entries(at, bodies), behind))
        }
        [2, rest @ ..] => {
            let ((at, bodies), behind) = bodies_at(alloc, rest)?;
            Ok((Parts::Rows(at, bodies), behind))
        }
        [3, rest @ ..] => {
            let (message, behind) = octets_at(rest)?;
            Ok((Parts::Message(message), behind))
        }
        _ => Err(FrameRefused::NoFrame),
    }
}

/// The parts of the frame that all of the bytes are.
pub fn parts_in<'a>(alloc: Global, bytes: &'a [u8]) -> Result<Parts<'a>, FrameRefused>
    ensures { ReadsAs parcel_seen result (parcel_in bytes.now) }
{
    let (parts, behind) = parts_at(alloc, bytes)?;
    if behind.is_empty() {
        Ok(parts)
    } else {
        drop(parts);
        Err(FrameRefused::NoFrame)
    }
}
