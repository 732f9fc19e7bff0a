//! What is asked of a page, what is on it, and why there is none.
use sm_base::{List, NoMemory, Text};
use sm_model::Filter;

/// What is asked of a page of secrets.
#[derive(Drop)]
pub struct PageAsk {
    pub filters: List<Filter>,
    /// Whether secrets whose deletion is scheduled are listed too.
    pub planned: bool,
    pub descending: bool,
    /// The most secrets on the page, from 1 to 100.
    pub max: u32,
    /// The token that the page before gave.
    pub token: Option<Text>,
}

/// What is on a page.
#[derive(Drop)]
pub struct Listed {
    pub serials: List<u64>,
    /// The token of the next page, where an item follows.
    pub next: Option<Text>,
}

/// Why there is no page, in the order in which it is looked at.
#[derive(Clone, Copy, Debug, PartialEq, Eq)]
pub enum PageRefused {
    /// The filter of this number, counted from 1, is the first that is not in its form.
    BadFilter(u32),
    BadToken,
    Memory,
}

impl From<NoMemory> for PageRefused {
    ghost use Rattle.std.specs.Prelude.{◌≡◌};
    ghost use Rattle.sm_listing.specs.declared.asks.PageRefused.TheVariants.{Memory};

    ghost from_gives = { λ _ refused. refused ≡ Memory };

    fn from(_error: NoMemory) -> PageRefused {
        PageRefused::Memory
    }
}
