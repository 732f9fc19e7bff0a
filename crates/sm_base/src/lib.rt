//! What every layer stands on: texts, bytes and lists, lack of memory and copies, moments, faults that are told, and
//! names, tokens, labels and ARNs in their spelling.
//!
//! Contracts see `Text` and `Bytes` as the list of their bytes, and `List<T>` and `SharedList<T>` as the list of their
//! items.
#![tactic(auto)]

pub mod bad_kind;
mod blocks;
pub mod bytes;
mod characters;
mod entry;
pub mod fails;
mod front;
pub mod limits;
pub mod list;
pub mod memory;
pub mod moment;
mod parts;
pub mod person_arn;
pub mod picks;
pub mod secret_id;
pub mod shared_list;
pub mod spelled;
pub mod spelling;
pub mod text;

pub use bad_kind::BadKind;
pub use bytes::Bytes;
pub use entry::Keyed;
pub use fails::Fails;
pub use list::List;
pub use memory::{Copied, NoMemory, copy_three, copy_two};
pub use moment::Moment;
pub use picks::Picks;
pub use secret_id::SecretId;
pub use shared_list::SharedList;
pub use spelling::{Arn, Label, Name, ReadRefused, Token};
pub use text::Text;
