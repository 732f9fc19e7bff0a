//! Texts that were seen.
ghost use Rattle.std.specs.Prelude.{◌≡◌, ◌||◌, not, ℕ, List, [], IfOk, OnOk};
ghost use Rattle.sm_base.specs.Texts.{same_text};
ghost use Rattle.sm_versions.specs.Texts.{is_among};

use sm_model::NoMemory;
use std::alloc::Global;
use std::collections::BTreeSet;
use std::marker::Model;

/// Texts that were seen, each once. They are in order, so that one is found as soon among hostile texts as among
/// others.
#[derive(Drop)]
pub struct Seen<'a> {
    texts: BTreeSet<&'a [u8]>,
}

impl<'a> Model for Seen<'a> {
    ghost use Rattle.std.specs.Prelude.{ℕ, List};
    ghost use Rattle.sm_base_check.specs.Seen.{texts_of};

    ghost Value = { List (List ℕ) };

    ghost view = { λ seen. texts_of seen.texts.keys };
}

impl<'a> Seen<'a> {
    /// None was seen. It takes no memory.
    pub fn new(alloc: Global) -> Seen<'a>
        ensures { result ≡ [] }
    {
        Seen {
            texts: BTreeSet::new(alloc),
        }
    }

    /// Sees a text. Whether it is seen for the first time.
    pub fn is_first(&mut self, text: &'a [u8]) -> Result<bool, NoMemory>
        ensures first { IfOk result (λ first. first ≡ not (is_among self.old text.now)) }
        ensures seen { OnOk result ((other : List ℕ) →
            is_among self.new other ≡ (same_text text.now other || is_among self.old other)) }
    {
        Ok(self.texts.insert(text)?)
    }
}
