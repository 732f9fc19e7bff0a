//! Rows as fields: what stands before all secrets, a secret without its versions, and a version.
ghost use Rattle.std.specs.Prelude.{◌≡◌, ◌++◌, IsTrue};
ghost use Rattle.sm_record.specs.Reading.{Gives};
ghost use Rattle.sm_record.specs.Rows as rows;
ghost use Rattle.sm_record.specs.Rows.{pair, job, rotation, rotation_dates, version};

use crate::edition::Edition;
use crate::field::Field;
use crate::narrow::{Date, Days, Octet};
use crate::out::Out;
use crate::since::{put_since, since_fits, since_then};
use crate::single::byte_at;
use crate::unread::Unread;
use sm_model::{
    Job, KeptPolicy, Label, Moment, Pair, Rotation, Stage, Text, Token, Value, VersionRow,
};
use std::alloc::Global;

/// What is behind the byte that a body of rows begins with.
pub fn sign_at(sign: u8, bytes: &[u8]) -> Result<&[u8], Unread>
    ensures { Gives (λ rest. (tt, rest.now)) result ((rows.sign sign).read bytes.now) }
{
    let (byte, rest) = byte_at(bytes)?;
    if byte == sign {
        Ok(rest)
    } else {
        Err(Unread::Left(rest.len() + 1))
    }
}

/// Writes the byte that a body of rows begins with.
pub fn put_sign(sign: u8, out: &mut Out)
    ensures { out.new ≡ out.old ++ (rows.sign sign).spell tt }
{
    out.push(sign);
}

/// The moment of a date, if there is one.
pub fn moment_of(date: Option<Date>) -> Option<Moment>
    ensures { result ≡ date }
{
    match date {
        Some(date) => Some(date.moment),
        None => None,
    }
}

/// The date of a moment, if there is one.
pub fn date_of(moment: Option<Moment>) -> Option<Date>
    ensures { result ≡ moment }
{
    match moment {
        Some(moment) => Some(Date { moment }),
        None => None,
    }
}

/// A small number, if there is one.
fn number_of(octet: Option<Octet>) -> Option<u32>
    ensures { result ≡ octet }
{
    match octet {
        Some(octet) => Some(octet.number),
        None => None,
    }
}

/// A small number as a byte, if there is one.
fn octet_of(number: Option<u32>) -> Option<Octet>
    ensures { result ≡ number }
{
    match number {
        Some(number) => Some(Octet { number }),
        None => None,
    }
}

/// A number of days, if there is one.
fn count_of(days: Option<Days>) -> Option<u32>
    ensures { result ≡ days }
{
    match days {
        Some(days) => Some(days.number),
        None => None,
    }
}

/// A number of days as it is spelled, if there is one.
fn days_of(number: Option<u32>) -> Option<Days>
    ensures { result ≡ number }
{
    match number {
        Some(number) => Some(Days { number }),
        None => None,
    }
}

impl Field for Pair {
    ghost codec = { λ _. pair };

    #[tactic(auto, unfolding(crate::specs::Rows::pair))]
    fn fits(&self, edition: Edition) -> bool {
        self.label.fits(edition) && self.id.fits(edition)
    }

    #[tactic(auto, unfolding(crate::specs::Rows::pair))]
    fn read_front(alloc: Global, edition: Edition, bytes: &[u8]) -> Result<(Pair, &[u8]), Unread> {
        let ((label, id), rest) = <(Label, Token)>::read_front(alloc, edition, bytes)?;
        Ok((Pair { label, id }, rest))
    }

    #[tactic(auto, using(std::proofs::lemmas::List::append_assoc, std::proofs::lemmas::Bool::and_parts), unfolding(crate::specs::Rows::pair))]
    fn put(&self, edition: Edition, out: &mut Out) {
        self.label.put(edition, out);
        self.id.put(edition, out);
    }
}

/// The fields of a rotation under way, one behind another.
type JobFields = (Token, (Stage, (Octet, (Date, Option<Octet>))));

impl Field for Job {
    ghost codec = { λ _. job };

    #[tactic(auto, unfolding(crate::specs::Rows::job))]
    fn fits(&self, edition: Edition) -> bool {
        let attempt = Octet {
            number: self.attempt,
        };
        let retry_at = Date {
            moment: self.retry_at,
        };
        self.token.fits(edition)
            && (self.stage.fits(edition)
                && (attempt.fits(edition)
                    && (retry_at.fits(edition) && octet_of(self.tested).fits(edition))))
    }

    #[tactic(auto, unfolding(crate::specs::Rows::job))]
    fn read_front(alloc: Global, edition: Edition, bytes: &[u8]) -> Result<(Job, &[u8]), Unread> {
        let ((token, (stage, (attempt, (retry_at, tested)))), rest) = JobFields::read_front(
            alloc, edition, bytes,
        )?;
        Ok((
            Job {
                token,
                stage,
                attempt: attempt.number,
                retry_at: retry_at.moment,
                tested: number_of(tested),
            },
            rest,
        ))
    }

    #[tactic(auto, using(std::proofs::lemmas::List::append_assoc, std::proofs::lemmas::Bool::and_parts), unfolding(crate::specs::Rows::job))]
    fn put(&self, edition: Edition, out: &mut Out) {
        let attempt = Octet {
            number: self.attempt,
        };
        let retry_at = Date {
            moment: self.retry_at,
        };
        self.token.put(edition, out);
        self.stage.put(edition, out);
        attempt.put(edition, out);
        retry_at.put(edition, out);
        octet_of(self.tested).put(edition, out);
    }
}

impl Field for KeptPolicy {
    ghost use Rattle.sm_record.specs.Fields.{text};

    ghost codec = { λ _. text };

    fn fits(&self, edition: Edition) -> bool {
        self.text().fits(edition)
    }

    fn read_front(
        alloc: Global,
        edition: Edition,
        bytes: &[u8],
    ) -> Result<(KeptPolicy, &[u8]), Unread> {
        let (text, rest) = Text::read_front(alloc, edition, bytes)?;
        Ok((KeptPolicy::of(alloc, text)?, rest))
    }

    fn put(&self, edition: Edition, out: &mut Out) {
        self.text().put(edition, out)
    }
}

/// The next and the last date of a rotation.
type RotationDates = (Option<Date>, Option<Date>);

/// Whether the schedule of a rotation and its dates have a spelling.
fn dates_fit(edition: Edition, rotation: &Rotation) -> bool
    ensures { result ≡ (rotation_dates edition).fits (rotation.now.schedule, (rotation.now.next, rotation.now.last)) }
{
    since_fits(edition, &rotation.schedule)
        && (date_of(rotation.next).fits(edition) && date_of(rotation.last).fits(edition))
}

/// Writes the schedule of a rotation and its dates.
#[tactic(auto, using(std::proofs::lemmas::List::append_assoc, std::proofs::lemmas::Bool::and_parts))]
fn put_dates(edition: Edition, out: &mut Out, rotation: &Rotation)
    requires { IsTrue ((rotation_dates edition).fits
        (rotation.now.schedule, (rotation.now.next, rotation.now.last))) }
    ensures { out.new ≡ out.old ++ (rotation_dates edition).spell
        (rotation.now.schedule, (rotation.now.next, rotation.now.last)) }
{
    put_since(edition, out, &rotation.schedule);
    date_of(rotation.next).put(edition, out);
    date_of(rotation.last).put(edition, out);
}

impl Field for Rotation {
    ghost codec = { rotation };

    #[tactic(auto, unfolding(crate::specs::Rows::rotation))]
    fn fits(&self, edition: Edition) -> bool {
        self.enabled.fits(edition)
            && (self.lambda.fits(edition)
                && (days_of(self.days).fits(edition) && dates_fit(edition, self)))
    }

    #[tactic(auto, unfolding(crate::specs::Rows::rotation))]
    fn read_front(
        alloc: Global,
        edition: Edition,
        bytes: &[u8],
    ) -> Result<(Rotation, &[u8]), Unread> {
        let (enabled, rest) = bool::read_front(alloc, edition, bytes)?;
        let (lambda, rest) = <Option<Text>>::read_front(alloc, edition, rest)?;
        let (days, rest) = <Option<Days>>::read_front(alloc, edition, rest)?;
        let ((schedule, (next, last)), rest) = since_then::<Option<Text>, RotationDates>(
            alloc, edition, rest,
        )?;
        Ok((
            Rotation {
                enabled,
                lambda,
                days: count_of(days),
                schedule,
                next: moment_of(next),
                last: moment_of(last),
            },
            rest,
        ))
    }

    #[tactic(auto, using(std::proofs::lemmas::List::append_assoc, std::proofs::lemmas::Bool::and_parts), unfolding(crate::specs::Rows::rotation))]
    fn put(&self, edition: Edition, out: &mut Out) {
        self.enabled.put(edition, out);
        self.lambda.put(edition, out);
        days_of(self.days).put(edition, out);
        put_dates(edition, out, self);
    }
}

/// The fields of a version, one behind another.
type VersionFields = (Token, (u64, (Date, (Option<Value>, (Option<Octet>, bool)))));

/// Whether the value of a version, and what is said of its rotation, have a spelling.
fn content_fits(edition: Edition, version: &VersionRow) -> bool
    ensures { result ≡ rows.version_content.fits
        (version.now.value, (version.now.rotated, version.now.by_rotation)) }
{
    version.value.fits(edition)
        && (octet_of(version.rotated).fits(edition) && version.by_rotation.fits(edition))
}

/// Writes the value of a version, and what is said of its rotation.
#[tactic(auto, using(std::proofs::lemmas::List::append_assoc, std::proofs::lemmas::Bool::and_parts))]
fn put_content(edition: Edition, out: &mut Out, version: &VersionRow)
    requires { IsTrue (rows.version_content.fits
        (version.now.value, (version.now.rotated, version.now.by_rotation))) }
    ensures { out.new ≡ out.old ++ rows.version_content.spell
        (version.now.value, (version.now.rotated, version.now.by_rotation)) }
{
    version.value.put(edition, out);
    octet_of(version.rotated).put(edition, out);
    version.by_rotation.put(edition, out);
}

impl Field for VersionRow {
    ghost codec = { λ _. version };

    #[tactic(auto, unfolding(crate::specs::Rows::version))]
    fn fits(&self, edition: Edition) -> bool {
        let made = Date { moment: self.made };
        self.id.fits(edition)
            && (self.serial.fits(edition) && (made.fits(edition) && content_fits(edition, self)))
    }

    #[tactic(auto, unfolding(crate::specs::Rows::version))]
    fn read_front(
        alloc: Global,
        edition: Edition,
        bytes: &[u8],
    ) -> Result<(VersionRow, &[u8]), Unread> {
        let rest = sign_at(243, bytes)?;
        let ((id, (serial, (made, (value, (rotated, by_rotation))))), rest) =
            VersionFields::read_front(alloc, edition, rest)?;
        Ok((
            VersionRow {
                id,
                serial,
                made: made.moment,
                value,
                rotated: number_of(rotated),
                by_rotation,
            },
            rest,
        ))
    }

    #[tactic(auto, using(std::proofs::lemmas::List::append_assoc, std::proofs::lemmas::Bool::and_parts), unfolding(crate::specs::Rows::version))]
    fn put(&self, edition: Edition, out: &mut Out) {
        let made = Date { moment: self.made };
        put_sign(243, out);
        self.id.put(edition, out);
        self.serial.put(edition, out);
        made.put(edition, out);
        put_content(edition, out, self);
    }
}
