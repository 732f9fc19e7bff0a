//! The serials of a page as a walk finds them.
ghost use Rattle.std.specs.Prelude.{◌≡◌, ◌<◌, ◌-◌, IfOk, None, option_map, slice_get, length, if◌then◌else◌};
ghost use Rattle.sm_listing.specs.PageTokens.{spelled};
ghost use Rattle.sm_listing.specs.Walks.{page_shown};

use crate::asks::Listed;
use crate::tokens::token_of;
use sm_base::{List, NoMemory, Text};
use std::alloc::Global;

/// The serials of a page, and whether a further one follows.
#[derive(Drop)]
pub(crate) struct Shown {
    pub serials: Vec<u64>,
    pub follows: bool,
}

/// The token of the next page, where an item follows.
fn next_token(alloc: Global, letter: char, shown: &Shown) -> Result<Option<Text>, NoMemory>
    requires { letter < 128 }
    ensures { IfOk result (λ next. next
        ≡ (if shown.now.follows
        then option_map (spelled letter) (slice_get shown.now.serials.items (length shown.now.serials.items - 1))
        else None)) }
{
    if !shown.follows {
        return Ok(None);
    }
    match shown.serials.as_slice().last() {
        Some(last) => Ok(Some(token_of(alloc, letter, *last)?)),
        None => Ok(None),
    }
}

/// The page of what a walk has found.
pub(crate) fn page_shown(alloc: Global, letter: char, shown: Shown) -> Result<Listed, NoMemory>
    requires { letter < 128 }
    ensures { IfOk result (λ page. page ≡ page_shown letter shown.serials.items shown.follows) }
{
    let next = next_token(alloc, letter, &shown)?;
    let Shown { serials, .. } = shown;
    Ok(Listed {
        serials: List::new(serials),
        next,
    })
}
