//! Entries as bytes, in two formats. In each an entry has at most one spelling, and what is not the spelling of an
//! entry is told by the place of its first field that is not spelled.
//!
//! Numbers are big end first: a moment, the days of a rule and a window have eight bytes, lengths and counts four. Text
//! is a length and UTF-8, bytes are a length and the bytes, a list is a count and the items. A truth value is the byte
//! 0 or 1, an option the byte 0, or 1 and the thing. An entry is its moment, the key of the person who asked, the drawn
//! bytes, and the act: a tag byte and its fields. The tag byte of an entry that prunes has 128 more.
//!
//! The second format has more: an entry begins with the byte 2, and has the ARN of the person who asked behind the key;
//! a secret that is made has regions, and rotation rules a schedule; and there are two acts on regions. In the first
//! all that is absent. No spelling of one format is one of the other: in the first the first byte of an entry is 0.
//!
//! Rows are spelled as bodies: one before all secrets, which begins with the byte f1, one for each secret, f2, and one
//! behind it for each of its versions, f3. They say how many follow, so that rows have at most one spelling too.
#![tactic(auto)]

mod acts;
mod base;
mod bodies;
mod body_slice;
pub mod edition;
mod entries;
mod field;
mod head;
mod heads;
mod lists;
mod narrow;
mod numbers;
mod out;
mod requests;
mod row_fields;
mod row_parts;
mod said;
mod since;
mod single;
mod snapshot;
mod spelling;
mod texts;
mod unread;
mod values;

pub use base::Base;
pub use body_slice::BodySlice;
pub use edition::Edition;
pub use snapshot::{decode_rows, encode_row, encode_start, encode_version, one_snapshot};
pub use spelling::{decode, encode, encode_first, has_spelling, one_spelling};
pub use unread::DecodeRefused;
