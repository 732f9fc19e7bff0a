//! Entries on a disk: a journal whose bodies are the spellings of a base and of the entries behind it.
#![tactic(auto)]

mod checkpoint;
mod entries;
mod filling;
mod laws;
mod loading;
mod open;
mod store;
mod unopened;

pub use laws::{a_file_holds_one_thing, a_kept_list_holds_the_same, what_a_store_holds};
pub use loading::{Loaded, is_marked};
pub use open::edition_of;
pub use sm_journal::{Appended, Damage, OpenRefused};
pub use store::Store;
pub use unopened::{Front, Unopened};
