//! Frames.
ghost use Rattle.std.specs.Prelude.{◌≡◌};

use sm_model::{Entry, List};
use sm_record::Base;

/// How many entries a frame may have.
pub const FRAME_ENTRIES: u32 = 100;

/// The number as it is stated, so that the constant stays it.
pub fn entries_of_a_frame_are_as_stated()
    ensures { FRAME_ENTRIES ≡ 100 }
{}

/// What a primary tells of its history. A position is the number of entries that were made before.
#[derive(Drop)]
pub enum Frame {
    /// The entries from this position on.
    Entries(u64, List<Entry>),
    /// The rows at this position.
    Rows(u64, Base),
}
