//! How long entries and bases are as they are spelled: no entry that may be made, and no body of a sound base, is too
//! long for a record of the journal; and how long the file of a base would be.
#![tactic(auto)]

pub mod measure;
pub mod spelled;
pub mod spelling;
mod typed;

pub use measure::file_size;
pub use spelled::note_spelled;
pub use spelling::spell;
