//! Texts and bytes, behind their length.
ghost use Rattle.std.specs.Prelude.{◌≡◌, ◌++◌, IsTrue};
ghost use Rattle.sm_record.specs.Fields.{octets, text, arn, token};
ghost use Rattle.sm_record.specs.Reading.{Gives};

use crate::edition::Edition;
use crate::field::Field;
use crate::numbers::{count_at, count_fits, put_count};
use crate::out::Out;
use crate::unread::Unread;
use sm_model::{Arn, Bytes, ReadRefused, Text, Token};
use std::alloc::Global;
use std::str;

/// Whether the length of bytes is a number of four bytes.
#[tactic(auto, unfolding(crate::specs::Fields::octets))]
pub fn octets_fit(bytes: &[u8]) -> bool
    ensures { result ≡ octets.fits bytes.now }
{
    count_fits(bytes.len())
}

/// The bytes behind a length. They are not copied, so a length that is too great asks for no memory.
#[tactic(auto, unfolding(crate::specs::Fields::octets))]
pub fn octets_at(bytes: &[u8]) -> Result<(&[u8], &[u8]), Unread>
    ensures { Gives (λ x. (x.0.now, x.1.now)) result (octets.read bytes.now) }
{
    let (length, rest) = count_at(bytes)?;
    let length = length as usize;
    if rest.len() < length {
        return Err(Unread::Left(bytes.len()));
    }
    let (front, behind) = rest.split_at(length);
    Ok((front, behind))
}

#[tactic(auto, using(std::proofs::lemmas::List::append_assoc), unfolding(crate::specs::Fields::octets))]
pub fn put_octets(out: &mut Out, bytes: &[u8])
    requires { IsTrue (octets.fits bytes.now) }
    ensures { out.new ≡ out.old ++ octets.spell bytes.now }
{
    put_count(out, bytes.len());
    out.extend(bytes);
}

impl Field for Bytes {
    ghost codec = { λ _. octets };

    fn fits(&self, _edition: Edition) -> bool {
        octets_fit(self.as_slice())
    }

    fn read_front(
        alloc: Global,
        _edition: Edition,
        bytes: &[u8],
    ) -> Result<(Bytes, &[u8]), Unread> {
        let (octets, rest) = octets_at(bytes)?;
        Ok((Bytes::from_slice(alloc, octets)?, rest))
    }

    fn put(&self, _edition: Edition, out: &mut Out) {
        put_octets(out, self.as_slice());
    }
}

impl Field for Text {
    ghost codec = { λ _. text };

    #[tactic(auto, using(crate::proofs::ReadingLemmas::utf8_passes), unfolding(crate::specs::Fields::text))]
    fn fits(&self, _edition: Edition) -> bool {
        octets_fit(self.as_bytes())
    }

    #[tactic(auto, using(crate::proofs::ReadingLemmas::utf8_passes, crate::proofs::ReadingLemmas::utf8_fails), unfolding(crate::specs::Fields::text))]
    fn read_front(alloc: Global, _edition: Edition, bytes: &[u8]) -> Result<(Text, &[u8]), Unread> {
        let (octets, rest) = octets_at(bytes)?;
        match str::from_utf8(octets) {
            Ok(text) => Ok((Text::brought(alloc, text)?, rest)),
            Err(_) => Err(Unread::Left(bytes.len())),
        }
    }

    #[tactic(auto, unfolding(crate::specs::Fields::text))]
    fn put(&self, _edition: Edition, out: &mut Out) {
        put_octets(out, self.as_bytes());
    }
}

impl Field for Arn {
    ghost codec = { λ _. arn };

    #[tactic(auto, unfolding(crate::specs::Fields::arn))]
    fn fits(&self, _edition: Edition) -> bool {
        octets_fit(self.as_text().as_bytes())
    }

    #[tactic(auto, using(crate::proofs::ReadingLemmas::fault_fails), unfolding(crate::specs::Fields::arn))]
    fn read_front(alloc: Global, _edition: Edition, bytes: &[u8]) -> Result<(Arn, &[u8]), Unread> {
        let (octets, rest) = octets_at(bytes)?;
        match Arn::read(alloc, octets) {
            Ok(arn) => Ok((arn, rest)),
            Err(ReadRefused::Spelling(_)) => Err(Unread::Left(bytes.len())),
            Err(ReadRefused::Memory) => Err(Unread::Memory),
        }
    }

    #[tactic(auto, unfolding(crate::specs::Fields::arn))]
    fn put(&self, _edition: Edition, out: &mut Out) {
        put_octets(out, self.as_text().as_bytes());
    }
}

impl Field for Token {
    ghost codec = { λ _. token };

    #[tactic(auto, unfolding(crate::specs::Fields::token))]
    fn fits(&self, _edition: Edition) -> bool {
        octets_fit(self.as_text().as_bytes())
    }

    #[tactic(auto, using(crate::proofs::ReadingLemmas::fault_fails), unfolding(crate::specs::Fields::token))]
    fn read_front(
        alloc: Global,
        _edition: Edition,
        bytes: &[u8],
    ) -> Result<(Token, &[u8]), Unread> {
        let (octets, rest) = octets_at(bytes)?;
        match Token::read(alloc, octets) {
            Ok(token) => Ok((token, rest)),
            Err(ReadRefused::Spelling(_)) => Err(Unread::Left(bytes.len())),
            Err(ReadRefused::Memory) => Err(Unread::Memory),
        }
    }

    #[tactic(auto, unfolding(crate::specs::Fields::token))]
    fn put(&self, _edition: Edition, out: &mut Out) {
        put_octets(out, self.as_text().as_bytes());
    }
}
