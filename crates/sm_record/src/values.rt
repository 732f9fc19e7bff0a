//! Values, tags, rules, and what is said of a rotation.
ghost use Rattle.sm_record.specs.Fields.{value, tag, rotation_rules};
ghost use Rattle.sm_record.specs.Entries.{answer, at};

use crate::edition::Edition;
use crate::field::Field;
use crate::out::Out;
use crate::since::{put_since, since_at, since_fits};
use crate::single::{attempt_at, attempt_fits, byte_at, put_attempt};
use crate::unread::Unread;
use sm_model::{Answer, At, Bytes, Rules, Stage, Tag, Text, Token, Value};
use std::alloc::Global;

impl Field for Value {
    ghost codec = { λ _. value };

    #[tactic(auto, unfolding(crate::specs::Fields::value))]
    fn fits(&self, edition: Edition) -> bool {
        match self {
            Value::Text(text) => text.fits(edition),
            Value::Bytes(octets) => octets.fits(edition),
        }
    }

    #[tactic(auto, unfolding(crate::specs::Fields::value))]
    fn read_front(alloc: Global, edition: Edition, bytes: &[u8]) -> Result<(Value, &[u8]), Unread> {
        let (kind, rest) = byte_at(bytes)?;
        match kind {
            1 => {
                let (text, behind) = Text::read_front(alloc, edition, rest)?;
                Ok((Value::Text(text), behind))
            }
            2 => {
                let (octets, behind) = Bytes::read_front(alloc, edition, rest)?;
                Ok((Value::Bytes(octets), behind))
            }
            _ => Err(Unread::Left(rest.len() + 1)),
        }
    }

    #[tactic(auto, using(std::proofs::lemmas::List::append_assoc), unfolding(crate::specs::Fields::value))]
    fn put(&self, edition: Edition, out: &mut Out) {
        match self {
            Value::Text(text) => {
                out.push(1);
                text.put(edition, out);
            }
            Value::Bytes(octets) => {
                out.push(2);
                octets.put(edition, out);
            }
        }
    }
}

impl Field for Tag {
    ghost codec = { λ _. tag };

    #[tactic(auto, unfolding(crate::specs::Fields::tag))]
    fn fits(&self, edition: Edition) -> bool {
        self.key.fits(edition) && self.value.fits(edition)
    }

    #[tactic(auto, unfolding(crate::specs::Fields::tag))]
    fn read_front(alloc: Global, edition: Edition, bytes: &[u8]) -> Result<(Tag, &[u8]), Unread> {
        let ((key, value), rest) = <(Text, Text)>::read_front(alloc, edition, bytes)?;
        Ok((Tag { key, value }, rest))
    }

    #[tactic(auto, using(std::proofs::lemmas::List::append_assoc, std::proofs::lemmas::Bool::and_parts), unfolding(crate::specs::Fields::tag))]
    fn put(&self, edition: Edition, out: &mut Out) {
        self.key.put(edition, out);
        self.value.put(edition, out);
    }
}

impl Field for Rules {
    ghost codec = { rotation_rules };

    #[tactic(auto, unfolding(crate::specs::Fields::rotation_rules))]
    fn fits(&self, edition: Edition) -> bool {
        self.days.fits(edition) && since_fits(edition, &self.schedule)
    }

    #[tactic(auto, unfolding(crate::specs::Fields::rotation_rules))]
    fn read_front(alloc: Global, edition: Edition, bytes: &[u8]) -> Result<(Rules, &[u8]), Unread> {
        let (days, rest) = <Option<i64>>::read_front(alloc, edition, bytes)?;
        let (schedule, behind) = since_at::<Option<Text>>(alloc, edition, rest)?;
        Ok((Rules { days, schedule }, behind))
    }

    #[tactic(auto, using(std::proofs::lemmas::List::append_assoc, std::proofs::lemmas::Bool::and_parts), unfolding(crate::specs::Fields::rotation_rules))]
    fn put(&self, edition: Edition, out: &mut Out) {
        self.days.put(edition, out);
        put_since(edition, out, &self.schedule);
    }
}

impl Field for At {
    ghost codec = { λ _. at };

    #[tactic(auto, unfolding(crate::specs::Entries::at))]
    fn fits(&self, edition: Edition) -> bool {
        self.token.fits(edition) && (self.stage.fits(edition) && attempt_fits(self.attempt))
    }

    #[tactic(auto, unfolding(crate::specs::Entries::at))]
    fn read_front(alloc: Global, edition: Edition, bytes: &[u8]) -> Result<(At, &[u8]), Unread> {
        let (token, rest) = Token::read_front(alloc, edition, bytes)?;
        let (stage, behind) = Stage::read_front(alloc, edition, rest)?;
        let (attempt, after) = attempt_at(behind)?;
        Ok((
            At {
                token,
                stage,
                attempt,
            },
            after,
        ))
    }

    #[tactic(auto, using(std::proofs::lemmas::List::append_assoc, std::proofs::lemmas::Bool::and_parts), unfolding(crate::specs::Entries::at))]
    fn put(&self, edition: Edition, out: &mut Out) {
        self.token.put(edition, out);
        self.stage.put(edition, out);
        put_attempt(out, self.attempt);
    }
}

impl Field for Answer {
    ghost codec = { λ _. answer };

    #[tactic(auto, unfolding(crate::specs::Entries::answer))]
    fn fits(&self, edition: Edition) -> bool {
        match self {
            Answer::Value(value) => value.fits(edition),
            Answer::Yes | Answer::No | Answer::Failed => true,
        }
    }

    #[tactic(auto, unfolding(crate::specs::Entries::answer))]
    fn read_front(
        alloc: Global,
        edition: Edition,
        bytes: &[u8],
    ) -> Result<(Answer, &[u8]), Unread> {
        let (kind, rest) = byte_at(bytes)?;
        match kind {
            1 => {
                let (value, behind) = Value::read_front(alloc, edition, rest)?;
                Ok((Answer::Value(value), behind))
            }
            2 => Ok((Answer::Yes, rest)),
            3 => Ok((Answer::No, rest)),
            4 => Ok((Answer::Failed, rest)),
            _ => Err(Unread::Left(rest.len() + 1)),
        }
    }

    #[tactic(auto, using(std::proofs::lemmas::List::append_assoc), unfolding(crate::specs::Entries::answer))]
    fn put(&self, edition: Edition, out: &mut Out) {
        match self {
            Answer::Value(value) => {
                out.push(1);
                value.put(edition, out);
            }
            Answer::Yes => {
                out.push(2);
            }
            Answer::No => {
                out.push(3);
            }
            Answer::Failed => {
                out.push(4);
            }
        }
    }
}
