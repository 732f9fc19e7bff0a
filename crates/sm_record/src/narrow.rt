//! Numbers as rows have them: any that their bytes hold.
ghost use Rattle.sm_record.specs.Fields.{long};
ghost use Rattle.sm_record.specs.Rows.{date, octet, days, name, label};

use crate::edition::Edition;
use crate::field::Field;
use crate::numbers::{long_at, put_long};
use crate::out::Out;
use crate::single::byte_at;
use crate::texts::{octets_at, octets_fit, put_octets};
use crate::unread::Unread;
use sm_model::{Label, Moment, Name, ReadRefused};
use std::alloc::Global;
use std::marker::Model;

/// A moment that need not be one that a clock reads.
#[derive(Drop)]
pub struct Date {
    pub moment: Moment,
}

impl Model for Date {
    ghost use Rattle.sm_base.specs.declared.moment.Moment.{Moment};

    ghost Value = { Moment };

    ghost view = { λ d. d.moment };
}

/// A number that is one byte.
#[derive(Drop)]
pub struct Octet {
    pub number: u32,
}

impl Model for Octet {
    ghost use Rattle.std.specs.Prelude.{ℕ};

    ghost Value = { ℕ };

    ghost view = { λ o. o.number };
}

/// A number of days.
#[derive(Drop)]
pub struct Days {
    pub number: u32,
}

impl Model for Days {
    ghost use Rattle.std.specs.Prelude.{ℕ};

    ghost Value = { ℕ };

    ghost view = { λ d. d.number };
}

impl Field for Date {
    ghost codec = { λ _. date };

    #[tactic(auto, using(crate::proofs::RowLemmas::long_fits), unfolding(crate::specs::Rows::date, crate::specs::Fields::long))]
    fn fits(&self, _edition: Edition) -> bool {
        let _seconds = self.moment.0;
        true
    }

    #[tactic(auto, unfolding(crate::specs::Rows::date))]
    fn read_front(
        _alloc: Global,
        _edition: Edition,
        bytes: &[u8],
    ) -> Result<(Date, &[u8]), Unread> {
        let (seconds, rest) = long_at(bytes)?;
        Ok((
            Date {
                moment: Moment(seconds),
            },
            rest,
        ))
    }

    #[tactic(auto, unfolding(crate::specs::Rows::date))]
    fn put(&self, _edition: Edition, out: &mut Out) {
        put_long(out, self.moment.0);
    }
}

impl Field for u64 {
    ghost codec = { λ _. long };

    #[tactic(auto, using(crate::proofs::RowLemmas::long_fits), unfolding(crate::specs::Fields::long))]
    fn fits(&self, _edition: Edition) -> bool {
        let _number = *self;
        true
    }

    #[tactic(auto)]
    fn read_front(_alloc: Global, _edition: Edition, bytes: &[u8]) -> Result<(u64, &[u8]), Unread> {
        long_at(bytes)
    }

    #[tactic(auto)]
    fn put(&self, _edition: Edition, out: &mut Out) {
        put_long(out, *self)
    }
}

impl Field for Octet {
    ghost codec = { λ _. octet };

    #[tactic(auto, unfolding(crate::specs::Rows::octet))]
    fn fits(&self, _edition: Edition) -> bool {
        self.number < 256
    }

    #[tactic(auto, unfolding(crate::specs::Rows::octet))]
    fn read_front(
        _alloc: Global,
        _edition: Edition,
        bytes: &[u8],
    ) -> Result<(Octet, &[u8]), Unread> {
        let (byte, rest) = byte_at(bytes)?;
        Ok((
            Octet {
                number: u32::from(byte),
            },
            rest,
        ))
    }

    #[tactic(auto, using(crate::proofs::RowLemmas::octet_is_byte), unfolding(crate::specs::Rows::octet))]
    fn put(&self, _edition: Edition, out: &mut Out) {
        out.push(self.number as u8);
    }
}

impl Field for Days {
    ghost codec = { λ _. days };

    #[tactic(auto, using(crate::proofs::RowLemmas::days_fit), unfolding(crate::specs::Rows::days, crate::specs::Fields::long))]
    fn fits(&self, _edition: Edition) -> bool {
        let _number = self.number;
        true
    }

    #[tactic(auto, unfolding(crate::specs::Rows::days))]
    fn read_front(
        _alloc: Global,
        _edition: Edition,
        bytes: &[u8],
    ) -> Result<(Days, &[u8]), Unread> {
        let (number, rest) = long_at(bytes)?;
        if number <= u64::from(u32::MAX) {
            Ok((
                Days {
                    number: number as u32,
                },
                rest,
            ))
        } else {
            Err(Unread::Left(bytes.len()))
        }
    }

    #[tactic(auto, unfolding(crate::specs::Rows::days))]
    fn put(&self, _edition: Edition, out: &mut Out) {
        put_long(out, u64::from(self.number));
    }
}

impl Field for Name {
    ghost codec = { λ _. name };

    #[tactic(auto, unfolding(crate::specs::Rows::name))]
    fn fits(&self, _edition: Edition) -> bool {
        octets_fit(self.as_text().as_bytes())
    }

    #[tactic(auto, using(crate::proofs::ReadingLemmas::fault_fails), unfolding(crate::specs::Rows::name))]
    fn read_front(alloc: Global, _edition: Edition, bytes: &[u8]) -> Result<(Name, &[u8]), Unread> {
        let (octets, rest) = octets_at(bytes)?;
        match Name::read(alloc, octets) {
            Ok(name) => Ok((name, rest)),
            Err(ReadRefused::Spelling(_)) => Err(Unread::Left(bytes.len())),
            Err(ReadRefused::Memory) => Err(Unread::Memory),
        }
    }

    #[tactic(auto, unfolding(crate::specs::Rows::name))]
    fn put(&self, _edition: Edition, out: &mut Out) {
        put_octets(out, self.as_text().as_bytes());
    }
}

impl Field for Label {
    ghost codec = { λ _. label };

    #[tactic(auto, unfolding(crate::specs::Rows::label))]
    fn fits(&self, _edition: Edition) -> bool {
        octets_fit(self.as_text().as_bytes())
    }

    #[tactic(auto, using(crate::proofs::ReadingLemmas::fault_fails), unfolding(crate::specs::Rows::label))]
    fn read_front(
        alloc: Global,
        _edition: Edition,
        bytes: &[u8],
    ) -> Result<(Label, &[u8]), Unread> {
        let (octets, rest) = octets_at(bytes)?;
        match Label::read(alloc, octets) {
            Ok(label) => Ok((label, rest)),
            Err(ReadRefused::Spelling(_)) => Err(Unread::Left(bytes.len())),
            Err(ReadRefused::Memory) => Err(Unread::Memory),
        }
    }

    #[tactic(auto, unfolding(crate::specs::Rows::label))]
    fn put(&self, _edition: Edition, out: &mut Out) {
        put_octets(out, self.as_text().as_bytes());
    }
}
