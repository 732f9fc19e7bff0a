//! The one spelling of an entry in a format.
ghost use Rattle.std.specs.Prelude.{◌≡◌, ◌↔◌, ℕ, List, ◌≤◌, length, IsTrue, IfOk, Ok, Err};
ghost use Rattle.sm_base.specs.Outcomes.{OrMemory};
ghost use Rattle.sm_model.specs.declared.entry.Entry.{Entry};
ghost use Rattle.sm_record.specs.Spelling.{spelling, HasSpelling, decoded, decode_told, IsDecodedFromSpelling, SpellsOne, IsReadAgain, TellsEditions};

use crate::edition::Edition;
use crate::field::Field;
use crate::out::Out;
use crate::unread::{DecodeRefused, Unread};
use sm_model::{Bytes, Entry, NoMemory};
use std::alloc::Global;

/// Whether an entry has a spelling in this format. It takes no memory.
#[tactic(auto, unfolding(crate::specs::Spelling::has_spelling))]
pub fn has_spelling(edition: Edition, entry: &Entry) -> bool
    ensures { IsTrue result ↔ HasSpelling edition entry.now }
{
    entry.fits(edition)
}

/// The spelling in the second format of an entry that has one.
pub fn encode(alloc: Global, entry: &Entry) -> Result<Bytes, NoMemory>
    requires { HasSpelling Edition.Second entry.now }
    ensures { IfOk result (λ bytes. bytes ≡ spelling Edition.Second entry.now) }
{
    encode_as(alloc, Edition::Second, entry)
}

/// The spelling in the first format of an entry that has one.
pub fn encode_first(alloc: Global, entry: &Entry) -> Result<Bytes, NoMemory>
    requires { HasSpelling Edition.First entry.now }
    ensures { IfOk result (λ bytes. bytes ≡ spelling Edition.First entry.now) }
{
    encode_as(alloc, Edition::First, entry)
}

#[tactic(auto, unfolding(crate::specs::Spelling::spelling, crate::specs::Spelling::has_spelling))]
fn encode_as(alloc: Global, edition: Edition, entry: &Entry) -> Result<Bytes, NoMemory>
    requires { HasSpelling edition entry.now }
    ensures { IfOk result (λ bytes. bytes ≡ spelling edition entry.now) }
{
    let mut out = Out::new(alloc);
    entry.put(edition, &mut out);
    out.into_bytes()
}

/// The entry that a body spells in this format, all of the body. A body that is no spelling is told by the place of its
/// first field that is not spelled: behind an option's 1 that of the thing, in a list that of the item's field, and of
/// a text that is too short or not UTF-8 that of its length. Behind a head that a start or a report cannot have, it is
/// the place of their tag.
pub fn decode(alloc: Global, edition: Edition, body: &[u8]) -> Result<Entry, DecodeRefused>
    // What is decoded has a spelling, and the body is it.
    ensures found { IfOk result (λ e. HasSpelling edition e × (spelling edition e ≡ body.now)) }
    // A spelling is decoded, unless there is no memory.
    ensures only { (e : Entry) → HasSpelling edition e → spelling edition e ≡ body.now
        → OrMemory (decode_told result) (Ok e) }
    // What is refused is the spelling of no entry.
    ensures no_entry { (place : ℕ) → result ≡ Err (DecodeRefused.NoEntry place)
        → (place ≤ length body.now) × ((e : Entry) → HasSpelling edition e → ¬ (spelling edition e ≡ body.now)) }
    // Which entry, or which place.
    ensures exact { OrMemory (decode_told result) (decoded edition body.now) }
{
    decode_whole(alloc, edition, body)
}

#[tactic(auto, unfolding(crate::specs::Spelling::decoded))]
fn decode_whole(alloc: Global, edition: Edition, body: &[u8]) -> Result<Entry, DecodeRefused>
    ensures { OrMemory (decode_told result) (decoded edition body.now) }
{
    match Entry::read_front(alloc, edition, body) {
        Ok((entry, rest)) => {
            if rest.is_empty() {
                Ok(entry)
            } else {
                drop(entry);
                Err(DecodeRefused::NoEntry(body.len() - rest.len()))
            }
        }
        Err(Unread::Left(left)) => Err(DecodeRefused::NoEntry(body.len() - left)),
        Err(Unread::Memory) => Err(DecodeRefused::Memory),
    }
}

/// Bytes are decoded to an entry exactly where they are its spelling. So an entry that has a spelling is decoded from
/// it, and two entries with one spelling are one entry. No spelling of one format is one of the other.
pub fn one_spelling()
    ensures exactly { IsDecodedFromSpelling }
    ensures again { IsReadAgain }
    ensures one { SpellsOne }
    ensures editions { TellsEditions }
{}
