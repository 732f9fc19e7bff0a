//! Secrets without their versions, and what stands before all secrets, as fields.
ghost use Rattle.std.specs.Prelude.{◌≡◌, ◌++◌, IsTrue};
ghost use Rattle.sm_record.specs.Reading.{Gives};
ghost use Rattle.sm_record.specs.Rows.{named, described, counted, ruled, row_tail, row_head, start, named_of, described_of, counted_of, ruled_of, head_of_row};

use crate::edition::Edition;
use crate::field::Field;
use crate::narrow::Date;
use crate::out::Out;
use crate::row_fields::{date_of, moment_of, put_sign, sign_at};
use crate::row_parts::{Counted, Described, Named, RowHead, Ruled, Start};
use crate::since::{put_since, since_then};
use crate::unread::Unread;
use sm_model::{Arn, Job, KeptPolicy, List, Name, Pair, Rotation, SecretRow, Tag, Text};
use std::alloc::Global;

/// What a secret is called, and when it was made and changed.
#[tactic(auto, unfolding(crate::specs::Rows::named))]
fn named_at(alloc: Global, edition: Edition, bytes: &[u8]) -> Result<(Named, &[u8]), Unread>
    ensures { Gives (λ x. (x.0, x.1.now)) result (named.read bytes.now) }
{
    let ((serial, (arn, (name, (created, changed)))), rest) = <(
        u64,
        (Arn, (Name, (Date, Date))),
    )>::read_front(alloc, edition, bytes)?;
    Ok((
        Named {
            serial,
            arn,
            name,
            created: created.moment,
            changed: changed.moment,
        },
        rest,
    ))
}

#[tactic(auto, using(std::proofs::lemmas::List::append_assoc, std::proofs::lemmas::Bool::and_parts), unfolding(crate::specs::Rows::named))]
fn put_named(edition: Edition, out: &mut Out, row: &SecretRow)
    requires { IsTrue (named.fits (named_of row.now)) }
    ensures { out.new ≡ out.old ++ named.spell (named_of row.now) }
{
    let created = Date {
        moment: row.created,
    };
    let changed = Date {
        moment: row.changed,
    };
    row.serial.put(edition, out);
    row.arn.put(edition, out);
    row.name.put(edition, out);
    created.put(edition, out);
    changed.put(edition, out);
}

/// What a secret's owner says of it.
#[tactic(auto, unfolding(crate::specs::Rows::described))]
fn described_at(alloc: Global, edition: Edition, bytes: &[u8]) -> Result<(Described, &[u8]), Unread>
    ensures { Gives (λ x. (x.0, x.1.now)) result (described.read bytes.now) }
{
    let ((description, (kms, tags)), rest) = <(
        Option<Text>,
        (Option<Text>, List<Tag>),
    )>::read_front(alloc, edition, bytes)?;
    Ok((
        Described {
            description,
            kms,
            tags,
        },
        rest,
    ))
}

#[tactic(auto, using(std::proofs::lemmas::List::append_assoc, std::proofs::lemmas::Bool::and_parts), unfolding(crate::specs::Rows::described))]
fn put_described(edition: Edition, out: &mut Out, row: &SecretRow)
    requires { IsTrue (described.fits (described_of row.now)) }
    ensures { out.new ≡ out.old ++ described.spell (described_of row.now) }
{
    row.description.put(edition, out);
    row.kms.put(edition, out);
    row.tags.put(edition, out);
}

/// How many versions follow, and what is said of them.
#[tactic(auto, unfolding(crate::specs::Rows::counted))]
fn counted_at(alloc: Global, edition: Edition, bytes: &[u8]) -> Result<(Counted, &[u8]), Unread>
    ensures { Gives (λ x. (x.0, x.1.now)) result (counted.read bytes.now) }
{
    let ((versions, (next_version, (labels, deletion))), rest) = <(
        u64,
        (u64, (List<Pair>, Option<Date>)),
    )>::read_front(alloc, edition, bytes)?;
    Ok((
        Counted {
            versions,
            next_version,
            labels,
            deletion: moment_of(deletion),
        },
        rest,
    ))
}

#[tactic(auto, using(std::proofs::lemmas::List::append_assoc, std::proofs::lemmas::Bool::and_parts), unfolding(crate::specs::Rows::counted))]
fn put_counted(edition: Edition, out: &mut Out, row: &SecretRow)
    requires { IsTrue (counted.fits (counted_of row.now)) }
    ensures { out.new ≡ out.old ++ counted.spell (counted_of row.now) }
{
    let versions = row.versions.len() as u64;
    versions.put(edition, out);
    row.next_version.put(edition, out);
    row.labels.put(edition, out);
    date_of(row.deletion).put(edition, out);
}

/// Who may ask for a secret, where it is, and what is under way.
#[tactic(auto, unfolding(crate::specs::Rows::ruled))]
fn ruled_at(alloc: Global, edition: Edition, bytes: &[u8]) -> Result<(Ruled, &[u8]), Unread>
    ensures { Gives (λ x. (x.0, x.1.now)) result ((ruled edition).read bytes.now) }
{
    let (policy, rest) = <Option<KeptPolicy>>::read_front(alloc, edition, bytes)?;
    let ((regions, job), rest) = since_then::<List<Text>, Option<Job>>(alloc, edition, rest)?;
    Ok((
        Ruled {
            policy,
            regions,
            job,
        },
        rest,
    ))
}

#[tactic(auto, using(std::proofs::lemmas::List::append_assoc, std::proofs::lemmas::Bool::and_parts), unfolding(crate::specs::Rows::ruled))]
fn put_ruled(edition: Edition, out: &mut Out, row: &SecretRow)
    requires { IsTrue ((ruled edition).fits (ruled_of row.now)) }
    ensures { out.new ≡ out.old ++ (ruled edition).spell (ruled_of row.now) }
{
    row.policy.put(edition, out);
    put_since(edition, out, &row.regions);
    row.job.put(edition, out);
}

/// What is said of a secret behind its description, one thing behind another.
type RowTail = (Counted, (Rotation, Ruled));

/// What is said of a secret behind its description.
fn row_tail_at(alloc: Global, edition: Edition, bytes: &[u8]) -> Result<(RowTail, &[u8]), Unread>
    ensures { Gives (λ x. (x.0, x.1.now)) result ((row_tail edition).read bytes.now) }
{
    let (counted, rest) = counted_at(alloc, edition, bytes)?;
    let (rotation, rest) = Rotation::read_front(alloc, edition, rest)?;
    let (ruled, rest) = ruled_at(alloc, edition, rest)?;
    Ok(((counted, (rotation, ruled)), rest))
}

/// Writes what is said of a secret behind its description.
#[tactic(auto, using(std::proofs::lemmas::List::append_assoc, std::proofs::lemmas::Bool::and_parts))]
fn put_row_tail(edition: Edition, out: &mut Out, row: &SecretRow)
    requires { IsTrue ((row_tail edition).fits (counted_of row.now, (row.now.rotation, ruled_of row.now))) }
    ensures { out.new ≡ out.old ++ (row_tail edition).spell (counted_of row.now, (row.now.rotation, ruled_of row.now)) }
{
    put_counted(edition, out, row);
    row.rotation.put(edition, out);
    put_ruled(edition, out, row);
}

/// A secret without its versions.
#[tactic(auto, unfolding(crate::specs::Rows::row_head))]
pub fn row_head_at(
    alloc: Global,
    edition: Edition,
    bytes: &[u8],
) -> Result<(RowHead, &[u8]), Unread>
    ensures { Gives (λ x. (x.0, x.1.now)) result ((row_head edition).read bytes.now) }
{
    let rest = sign_at(242, bytes)?;
    let (named, rest) = named_at(alloc, edition, rest)?;
    let (described, rest) = described_at(alloc, edition, rest)?;
    let ((counted, (rotation, ruled)), rest) = row_tail_at(alloc, edition, rest)?;
    Ok((
        RowHead {
            named,
            described,
            counted,
            rotation,
            ruled,
        },
        rest,
    ))
}

/// Writes a secret without its versions.
#[tactic(auto, using(std::proofs::lemmas::List::append_assoc, std::proofs::lemmas::Bool::and_parts), unfolding(crate::specs::Rows::row_head))]
pub fn put_row_head(edition: Edition, out: &mut Out, row: &SecretRow)
    requires { IsTrue ((row_head edition).fits (head_of_row row.now)) }
    ensures { out.new ≡ out.old ++ (row_head edition).spell (head_of_row row.now) }
{
    put_sign(242, out);
    put_named(edition, out, row);
    put_described(edition, out, row);
    put_row_tail(edition, out, row);
}

/// What stands before all secrets.
#[tactic(auto, unfolding(crate::specs::Rows::start))]
pub fn start_at(alloc: Global, edition: Edition, bytes: &[u8]) -> Result<(Start, &[u8]), Unread>
    ensures { Gives (λ x. (x.0, x.1.now)) result (start.read bytes.now) }
{
    let rest = sign_at(241, bytes)?;
    let ((next, (last, (entries, secrets))), rest) = <(u64, (Date, (u64, u64)))>::read_front(
        alloc, edition, rest,
    )?;
    Ok((
        Start {
            next,
            last: last.moment,
            entries,
            secrets,
        },
        rest,
    ))
}

/// Writes what stands before all secrets.
#[tactic(auto, using(std::proofs::lemmas::List::append_assoc, std::proofs::lemmas::Bool::and_parts), unfolding(crate::specs::Rows::start))]
pub fn put_start(edition: Edition, out: &mut Out, first: Start)
    requires { IsTrue (start.fits first) }
    ensures { out.new ≡ out.old ++ start.spell first }
{
    let last = Date { moment: first.last };
    put_sign(241, out);
    first.next.put(edition, out);
    last.put(edition, out);
    first.entries.put(edition, out);
    first.secrets.put(edition, out);
}
