//! The heads of entries: all that stands before the act.
ghost use Rattle.std.specs.Prelude.{◌≡◌, ◌++◌, IsTrue};
ghost use Rattle.sm_record.specs.Editions.{mark};
ghost use Rattle.sm_record.specs.Entries.{head, head_of, before_of};
ghost use Rattle.sm_record.specs.Reading.{Gives};

use crate::edition::Edition;
use crate::field::Field;
use crate::out::Out;
use crate::since::{put_since, since_fits, since_then};
use crate::single::byte_at;
use crate::unread::Unread;
use sm_model::{Act, Bytes, Entry, Moment, Text};
use std::alloc::Global;

/// What stands before the act of an entry.
pub struct Head {
    pub moment: Moment,
    /// The key of the person who asked.
    pub caller: Text,
    /// The ARN of the person who asked.
    pub by: Text,
    /// The random bytes that were drawn.
    pub drawn: Bytes,
}

/// Who lets a head go makes one call.
impl Drop for Head {
    fn drop(self) {
        let Head {
            moment: _,
            caller: _,
            by: _,
            drawn: _,
        } = self;
    }
}

impl Head {
    /// The entry of this head and of what stands behind it.
    pub fn entry(self, prunes: bool, act: Act) -> Entry
        ensures { result ≡ record {
          moment = self.moment;
          caller = self.caller;
          by = self.by;
          drawn = self.drawn;
          act = act;
          prunes = prunes;
        } }
    {
        let Head {
            moment,
            caller,
            by,
            drawn,
        } = self;
        Entry {
            moment,
            caller,
            by,
            drawn,
            act,
            prunes,
        }
    }
}

/// What a head says of the act behind it.
#[derive(Clone, Copy)]
pub struct Before {
    /// Whether nobody asked: the key and the ARN are empty.
    pub unasked: bool,
    /// How many random bytes were drawn.
    pub drawn: usize,
}

/// What the head of an entry with these fields says of the act behind it.
pub fn before_act(caller: &Text, by: &Text, drawn: &Bytes) -> Before
    ensures { result ≡ before_of caller.now by.now drawn.now }
{
    Before {
        unasked: caller.len() == 0 && by.len() == 0,
        drawn: drawn.len(),
    }
}

/// What is behind the mark of a format.
#[tactic(auto, unfolding(crate::specs::Editions::mark))]
fn mark_at(edition: Edition, bytes: &[u8]) -> Result<&[u8], Unread>
    ensures { Gives (λ rest. (tt, rest.now)) result ((mark edition).read bytes.now) }
{
    match edition {
        Edition::First => Ok(bytes),
        Edition::Second => {
            let (byte, rest) = byte_at(bytes)?;
            if byte == 2 {
                Ok(rest)
            } else {
                Err(Unread::Left(rest.len() + 1))
            }
        }
    }
}

/// Writes the mark of a format.
#[tactic(auto, unfolding(crate::specs::Editions::mark))]
fn put_mark(edition: Edition, out: &mut Out)
    ensures { out.new ≡ out.old ++ (mark edition).spell tt }
{
    match edition {
        Edition::First => {}
        Edition::Second => {
            out.push(2);
        }
    }
}

/// The head of an entry.
#[tactic(auto, unfolding(crate::specs::Entries::head))]
pub fn head_at(alloc: Global, edition: Edition, bytes: &[u8]) -> Result<(Head, &[u8]), Unread>
    ensures { Gives (λ x. (x.0, x.1.now)) result ((head edition).read bytes.now) }
{
    let rest = mark_at(edition, bytes)?;
    let (moment, rest) = Moment::read_front(alloc, edition, rest)?;
    let (caller, rest) = Text::read_front(alloc, edition, rest)?;
    let ((by, drawn), rest) = since_then::<Text, Bytes>(alloc, edition, rest)?;
    Ok((
        Head {
            moment,
            caller,
            by,
            drawn,
        },
        rest,
    ))
}

/// Whether the head of an entry has a spelling.
#[tactic(auto, using(crate::proofs::FitLemmas::mark_fits), unfolding(crate::specs::Entries::head))]
pub fn head_fits(edition: Edition, entry: &Entry) -> bool
    ensures { result ≡ (head edition).fits (head_of entry.now) }
{
    entry.moment.fits(edition)
        && (entry.caller.fits(edition)
            && (since_fits(edition, &entry.by) && entry.drawn.fits(edition)))
}

/// Writes the head of an entry.
#[tactic(auto, using(std::proofs::lemmas::List::append_assoc, std::proofs::lemmas::Bool::and_parts), unfolding(crate::specs::Entries::head))]
pub fn put_head(edition: Edition, out: &mut Out, entry: &Entry)
    requires { IsTrue ((head edition).fits (head_of entry.now)) }
    ensures { out.new ≡ out.old ++ (head edition).spell (head_of entry.now) }
{
    put_mark(edition, out);
    entry.moment.put(edition, out);
    entry.caller.put(edition, out);
    put_since(edition, out, &entry.by);
    entry.drawn.put(edition, out);
}
