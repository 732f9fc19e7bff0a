//! Rows that are read from bodies.
ghost use Rattle.std.specs.Prelude.{◌≡◌, ◌<◌, ◌≤◌, ◌^◌, ℕ, List, length, drop, IfOk};
ghost use Rattle.sm_record.specs.Codec.{Codec};
ghost use Rattle.sm_record.specs.Reading.{Gives, LeftWithin};
ghost use Rattle.sm_record.specs.Rows as rows;
ghost use Rattle.sm_record.specs.Series.{Series, one, total, read_body, read_times};
ghost use Rattle.sm_record.specs.declared.edition.Edition.{Edition};

use crate::base::Base;
use crate::body_slice::BodySlice;
use crate::edition::Edition;
use crate::field::Field;
use crate::heads::{row_head_at, start_at};
use crate::row_parts::{RowHead, Start};
use crate::unread::Unread;
use sm_model::{List, SecretRow, SharedList, VersionRow};
use std::alloc::Global;

/// What is spelled as one body.
pub trait Body: Drop {
    /// How it is spelled in a format.
    ghost codec: { Edition → Codec Self };

    /// Reads one at the front of bytes, and gives the bytes behind it too.
    fn read_body(alloc: Global, edition: Edition, bytes: &[u8]) -> Result<(Self, &[u8]), Unread>
        ensures exact { Gives (λ x. (x.0, x.1.now)) result ((codec edition).read bytes.now) }
        ensures rest { IfOk result (λ x. length x.1.now ≤ length bytes.now) }
        ensures left { LeftWithin result (length bytes.now) };
}

impl Body for Start {
    ghost codec = { λ _. rows.start };

    fn read_body(alloc: Global, edition: Edition, bytes: &[u8]) -> Result<(Start, &[u8]), Unread> {
        start_at(alloc, edition, bytes)
    }
}

impl Body for RowHead {
    ghost codec = { rows.row_head };

    fn read_body(
        alloc: Global,
        edition: Edition,
        bytes: &[u8],
    ) -> Result<(RowHead, &[u8]), Unread> {
        row_head_at(alloc, edition, bytes)
    }
}

impl Body for VersionRow {
    ghost codec = { λ _. rows.version };

    fn read_body(
        alloc: Global,
        edition: Edition,
        bytes: &[u8],
    ) -> Result<(VersionRow, &[u8]), Unread> {
        VersionRow::read_front(alloc, edition, bytes)
    }
}

/// How many bytes bodies have together.
pub fn total(bodies: &[BodySlice<'_>]) -> usize
    requires { total bodies.now < 2 ^ 64 }
    ensures { result ≡ total bodies.now }
{
    let mut sum = 0;
    for body in bodies {
        sum += body.len();
    }
    sum
}

/// The thing of the first body, all of the body, and how many bodies it has, which is one.
fn body_at<A: Body>(
    alloc: Global,
    edition: Edition,
    bodies: &[BodySlice<'_>],
) -> Result<(A, usize), Unread>
    requires { total bodies.now < 2 ^ 64 }
    ensures exact { Gives (λ x. (x.0, drop x.1 bodies.now)) result (read_body (A.codec edition) bodies.now) }
    ensures within { IfOk result (λ x. x.1 ≤ length bodies.now) }
{
    match bodies {
        [] => Err(Unread::Left(0)),
        [body, behind @ ..] => match A::read_body(alloc, edition, body.as_slice()) {
            Ok((thing, rest)) => {
                if rest.is_empty() {
                    Ok((thing, 1))
                } else {
                    drop(thing);
                    Err(Unread::Left(rest.len() + total(behind)))
                }
            }
            Err(Unread::Left(left)) => Err(Unread::Left(left + total(behind))),
            Err(Unread::Memory) => Err(Unread::Memory),
        },
    }
}

/// What is spelled as bodies one after the other.
pub trait Sequel: Drop {
    /// How it is spelled in a format.
    ghost series: { Edition → Series Self };

    /// Reads one at the front of bodies, and gives how many bodies it has too.
    fn read_bodies(
        alloc: Global,
        edition: Edition,
        bodies: &[BodySlice<'_>],
    ) -> Result<(Self, usize), Unread>
        requires { total bodies.now < 2 ^ 64 }
        ensures exact { Gives (λ x. (x.0, drop x.1 bodies.now)) result ((series edition).read bodies.now) }
        ensures within { IfOk result (λ x. x.1 ≤ length bodies.now) };
}

/// So many things, and how many bodies they have. Memory is taken for those that are there alone.
fn times_at<A: Sequel>(
    alloc: Global,
    edition: Edition,
    count: u64,
    bodies: &[BodySlice<'_>],
) -> Result<(Vec<A>, usize), Unread>
    requires { total bodies.now < 2 ^ 64 }
    ensures exact { Gives (λ x. (x.0.items, drop x.1 bodies.now)) result
        (read_times (A.series edition) count bodies.now) }
    ensures within { IfOk result (λ x. x.1 ≤ length bodies.now) }
{
    let mut items = Vec::new(alloc);
    let mut at = 0;
    for _ in 0..count {
        let (item, taken) = A::read_bodies(alloc, edition, &bodies[at..])?;
        items.push(item)?;
        at += taken;
    }
    Ok((items, at))
}

impl Sequel for VersionRow {
    ghost series = { λ _. one rows.version };

    fn read_bodies(
        alloc: Global,
        edition: Edition,
        bodies: &[BodySlice<'_>],
    ) -> Result<(VersionRow, usize), Unread> {
        body_at::<VersionRow>(alloc, edition, bodies)
    }
}

impl Sequel for SecretRow {
    ghost series = { rows.secret };

    #[tactic(auto, unfolding(crate::specs::Rows::secret))]
    fn read_bodies(
        alloc: Global,
        edition: Edition,
        bodies: &[BodySlice<'_>],
    ) -> Result<(SecretRow, usize), Unread> {
        let (head, first) = body_at::<RowHead>(alloc, edition, bodies)?;
        let (versions, others) = times_at::<VersionRow>(
            alloc,
            edition,
            head.counted.versions,
            &bodies[first..],
        )?;
        let versions = SharedList::from_vec(alloc, versions)?;
        Ok((head.row(versions), first + others))
    }
}

/// All rows, and how many bodies they have.
#[tactic(auto, unfolding(crate::specs::Rows::rows))]
pub fn base_at(
    alloc: Global,
    edition: Edition,
    bodies: &[BodySlice<'_>],
) -> Result<(Base, usize), Unread>
    requires { total bodies.now < 2 ^ 64 }
    ensures exact { Gives (λ x. (x.0, drop x.1 bodies.now)) result ((rows.rows edition).read bodies.now) }
    ensures within { IfOk result (λ x. x.1 ≤ length bodies.now) }
{
    let (start, first) = body_at::<Start>(alloc, edition, bodies)?;
    let (secrets, others) = times_at::<SecretRow>(alloc, edition, start.secrets, &bodies[first..])?;
    Ok((start.base(List::new(secrets)), first + others))
}
