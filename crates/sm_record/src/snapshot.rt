//! The one spelling of rows in a format, as bodies.
ghost use Rattle.std.specs.Prelude.{◌≡◌, ℕ, List, IsTrue, IfOk, IfSome, Ok, Err};
ghost use Rattle.sm_base.specs.Outcomes.{OrMemory};
ghost use Rattle.sm_record.specs.Rows.{start_of_base};
ghost use Rattle.sm_record.specs.Rows as rows;
ghost use Rattle.sm_record.specs.Codec.{IsBytes};
ghost use Rattle.sm_record.specs.Series.{AreBytes, total};
ghost use Rattle.sm_record.specs.Snapshots.{snapshot, HasSnapshot, decoded_rows, rows_told, version_body, row_body, start_body, AreDecodedFromSpelling, SpellsOneBase};
ghost use Rattle.sm_record.specs.declared.base.Base.{Base};

use crate::base::Base;
use crate::bodies::{base_at, total};
use crate::body_slice::BodySlice;
use crate::edition::Edition;
use crate::field::Field;
use crate::heads::{put_row_head, put_start};
use crate::out::Out;
use crate::row_parts::Start;
use crate::unread::{DecodeRefused, Unread};
use sm_model::{Bytes, NoMemory, SecretRow, VersionRow};
use std::alloc::Global;

/// The body that stands before all secrets.
#[tactic(auto, unfolding(crate::specs::Snapshots::start_body))]
pub fn encode_start(alloc: Global, edition: Edition, base: &Base) -> Result<Bytes, NoMemory>
    requires { IsTrue (rows.start.fits (start_of_base base.now)) }
    ensures { IfOk result (λ bytes. bytes ≡ start_body base.now) }
{
    let mut out = Out::new(alloc);
    let start = Start {
        next: base.rows.next,
        last: base.last,
        entries: base.entries,
        secrets: base.rows.secrets.len() as u64,
    };
    put_start(edition, &mut out, start);
    out.into_bytes()
}

/// The body of a secret without its versions.
#[tactic(auto, unfolding(crate::specs::Snapshots::row_body))]
pub fn encode_row(alloc: Global, edition: Edition, row: &SecretRow) -> Result<Bytes, NoMemory>
    requires { IsTrue ((rows.row_head edition).fits (rows.head_of_row row.now)) }
    ensures { IfOk result (λ bytes. bytes ≡ row_body edition row.now) }
{
    let mut out = Out::new(alloc);
    put_row_head(edition, &mut out, row);
    out.into_bytes()
}

/// The body of a version.
#[tactic(auto, unfolding(crate::specs::Snapshots::version_body))]
pub fn encode_version(
    alloc: Global,
    edition: Edition,
    version: &VersionRow,
) -> Result<Bytes, NoMemory>
    requires { IsTrue (rows.version.fits version.now) }
    ensures { IfOk result (λ bytes. bytes ≡ version_body version.now) }
{
    let mut out = Out::new(alloc);
    version.put(edition, &mut out);
    out.into_bytes()
}

/// The rows that bodies spell in this format, all of them. Bodies that are no spelling of rows are told by the place
/// among all their bytes of the first field that is not spelled, of the first byte behind what a body has, or of the
/// first body behind the rows. It takes memory for the rows alone.
pub fn decode_rows(
    alloc: Global,
    edition: Edition,
    bodies: &[BodySlice<'_>],
) -> Result<Base, DecodeRefused>
    // What is decoded has a spelling, and the bodies are it.
    ensures found { IfOk result (λ base. HasSnapshot edition base × (snapshot edition base ≡ bodies.now)) }
    // A spelling is decoded, unless there is no memory.
    ensures only { (base : Base) → HasSnapshot edition base → snapshot edition base ≡ bodies.now
        → OrMemory (rows_told result) (Ok base) }
    // What is refused is the spelling of no rows.
    ensures no_rows { (place : ℕ) → result ≡ Err (DecodeRefused.NoEntry place)
        → (base : Base) → HasSnapshot edition base → ¬ (snapshot edition base ≡ bodies.now) }
    // Which rows, or which place.
    ensures exact { OrMemory (rows_told result) (decoded_rows edition bodies.now) }
{
    note_all(bodies);
    match checked_total(bodies) {
        Some(whole) => decode_all(alloc, edition, bodies, whole),
        None => Err(DecodeRefused::Memory),
    }
}

/// Each number of a body is a byte.
fn note_bytes(bytes: &[u8])
    ensures { IsBytes bytes.now }
{}

/// Each number of each body is a byte.
fn note_all(bodies: &[BodySlice<'_>])
    ensures { AreBytes bodies.now }
{
    for body in bodies {
        note_bytes(body.as_slice());
    }
}

/// How many bytes bodies have together, if a machine word says it.
fn checked_total(bodies: &[BodySlice<'_>]) -> Option<usize>
    ensures { IfSome result (λ sum. sum ≡ total bodies.now) }
{
    let mut sum = 0;
    for body in bodies {
        let length = body.len();
        if usize::MAX - sum < length {
            return None;
        }
        sum += length;
    }
    Some(sum)
}

#[tactic(auto, unfolding(crate::specs::Snapshots::decoded_rows))]
fn decode_all(
    alloc: Global,
    edition: Edition,
    bodies: &[BodySlice<'_>],
    whole: usize,
) -> Result<Base, DecodeRefused>
    requires whole { whole ≡ total bodies.now }
    requires bytes { AreBytes bodies.now }
    ensures { OrMemory (rows_told result) (decoded_rows edition bodies.now) }
{
    match base_at(alloc, edition, bodies) {
        Ok((base, taken)) => {
            let behind = &bodies[taken..];
            if behind.is_empty() {
                Ok(base)
            } else {
                drop(base);
                Err(DecodeRefused::NoEntry(whole - total(behind)))
            }
        }
        Err(Unread::Left(left)) => Err(DecodeRefused::NoEntry(whole - left)),
        Err(Unread::Memory) => Err(DecodeRefused::Memory),
    }
}

/// Bodies are decoded to rows exactly where they are their spelling. So rows with one spelling are the same.
pub fn one_snapshot()
    ensures exactly { AreDecodedFromSpelling }
    ensures one { SpellsOneBase }
{}
