//! Why bodies are not read as entries.
use sm_journal::Damage;

/// Why bodies are not read as entries.
#[derive(Clone, Copy, Debug, PartialEq, Eq)]
pub enum EntriesRefused {
    /// A body is no entry's spelling.
    Damaged(Damage),
    Memory,
}
