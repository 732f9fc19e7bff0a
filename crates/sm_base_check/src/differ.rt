//! Whether texts differ, however many they are.
ghost use Rattle.std.specs.Prelude.{◌≡◌, ◌<◌, ℕ, List, Some, IfOk, length, slice_get};
ghost use Rattle.sm_model.specs.declared.rows.Pair.{Pair};
ghost use Rattle.sm_model.specs.declared.rows.SecretRow.{SecretRow};
ghost use Rattle.sm_model.specs.declared.rows.VersionRow.{VersionRow};
ghost use Rattle.sm_model.specs.declared.value.Tag.{Tag};
ghost use Rattle.sm_versions.specs.Sound.{tag_keys};
ghost use Rattle.sm_versions.specs.Texts.{once};
ghost use Rattle.sm_table.specs.Kept.{row_names};
ghost use Rattle.sm_base_check.specs.Tests.{version_ids, pair_labels};

use crate::seen::Seen;
use sm_model::{List, NoMemory, Pair, SecretRow, SharedList, Tag, VersionRow};
use std::alloc::Global;

/// Things that are told from each other by a text.
pub trait Told {
    ghost texts: { Self → List (List ℕ) };

    fn count(&self) -> usize
        ensures { result ≡ length (texts self.now) };

    /// The text of the thing at a place, counted from 0.
    fn text(&self, at: usize) -> &[u8]
        requires { at < length (texts self.now) }
        ensures { slice_get (texts self.now) at ≡ Some result.now };
}

/// Whether no two of the things have the same text.
pub fn all_differ<T: Told>(alloc: Global, things: &T) -> Result<bool, NoMemory>
    ensures { IfOk result (λ differ. differ ≡ once (T.texts things.now)) }
{
    let mut seen = Seen::new(alloc);
    for at in 0..things.count() {
        if !seen.is_first(things.text(at))? {
            return Ok(false);
        }
    }
    Ok(true)
}

/// Secrets are told from each other by their names.
impl Told for List<SecretRow> {
    ghost texts = { row_names };

    #[tactic(auto, using(crate::proofs::DifferLemmas::name_count))]
    fn count(&self) -> usize {
        self.len()
    }

    #[tactic(auto, using(crate::proofs::DifferLemmas::name_at, crate::proofs::DifferLemmas::name_none))]
    fn text(&self, at: usize) -> &[u8] {
        match self.get(at) {
            Some(row) => row.name.as_text().as_bytes(),
            None => unreachable!(),
        }
    }
}

/// Versions are told from each other by their ids.
impl Told for SharedList<VersionRow> {
    ghost texts = { version_ids };

    #[tactic(auto, using(crate::proofs::DifferLemmas::id_count))]
    fn count(&self) -> usize {
        self.len()
    }

    #[tactic(auto, using(crate::proofs::DifferLemmas::id_at, crate::proofs::DifferLemmas::id_none))]
    fn text(&self, at: usize) -> &[u8] {
        match self.get(at) {
            Some(version) => version.id.as_text().as_bytes(),
            None => unreachable!(),
        }
    }
}

/// Pairs are told from each other by their labels.
impl Told for List<Pair> {
    ghost texts = { pair_labels };

    #[tactic(auto, using(crate::proofs::DifferLemmas::label_count))]
    fn count(&self) -> usize {
        self.len()
    }

    #[tactic(auto, using(crate::proofs::DifferLemmas::label_at, crate::proofs::DifferLemmas::label_none))]
    fn text(&self, at: usize) -> &[u8] {
        match self.get(at) {
            Some(pair) => pair.label.as_text().as_bytes(),
            None => unreachable!(),
        }
    }
}

/// Tags are told from each other by their keys.
impl Told for List<Tag> {
    ghost texts = { tag_keys };

    #[tactic(auto, using(crate::proofs::DifferLemmas::key_count))]
    fn count(&self) -> usize {
        self.len()
    }

    #[tactic(auto, using(crate::proofs::DifferLemmas::key_at, crate::proofs::DifferLemmas::key_none))]
    fn text(&self, at: usize) -> &[u8] {
        match self.get(at) {
            Some(tag) => tag.key.as_bytes(),
            None => unreachable!(),
        }
    }
}
