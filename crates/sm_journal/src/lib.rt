//! A journal: a list of records in a file, each behind a gate.
#![tactic(auto)]

mod answers;
mod device;
mod format;
mod fresh;
mod journal;
mod laws;
mod lengths;
mod open;
mod parse;
mod records;
mod root;
mod tail;

pub use answers::{Appended, OpenRefused};
pub use format::Format;
pub use fresh::Fresh;
pub use journal::Journal;
pub use laws::{a_file_has_one_list, each_has_one_proof};
pub use lengths::{HEADER_SIZE, record_size};
pub use parse::{Damage, format_at};
pub use records::Records;
pub use root::{ROOT, named_file};
