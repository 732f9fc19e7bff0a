//! An index of the labels of a secret.
ghost use Rattle.std.specs.Prelude.{◌≡◌, IfOk, option_copied};
ghost use Rattle.std.specs.List.{position};
ghost use Rattle.sm_base.specs.Texts.{same_text};
ghost use Rattle.sm_versions.specs.Find.{looked_up, version_labelled, lookup};
ghost use Rattle.sm_versions.specs.Places.{place_of, places_of};

use crate::labels::{current, is_same};
use crate::lookup::{Found, lookup_of, lookup_of_both};
use crate::versions::{position_of, version_of};
use sm_model::{Label, NoMemory, Pair, SecretRow, SharedList, Token, VersionRow};
use std::alloc::Global;
use std::marker::Model;

/// Where the version of each label of a secret stands, in the order of the labels. It is a place and not a version, so
/// that the index and the secret may be kept side by side.
#[derive(Drop)]
pub struct LabelIndex {
    places: Vec<usize>,
}

impl Model for LabelIndex {
    ghost use Rattle.std.specs.Prelude.{List, ℕ};

    ghost Value = { List ℕ };

    ghost view = { λ index. index.places.items };
}

impl LabelIndex {
    /// The index of the secret's labels.
    #[tactic(auto, using(crate::proofs::PlaceLaws::each_place_more))]
    pub fn of(alloc: Global, row: &SecretRow) -> Result<LabelIndex, NoMemory>
        ensures { IfOk result (λ index. index ≡ places_of row.now) }
    {
        let pairs = row.labels.as_slice();
        let mut places = Vec::with_capacity(alloc, pairs.len())?;
        for pair in pairs {
            places.push(place_of(&row.versions, &pair.id))?;
        }
        Ok(LabelIndex { places })
    }

    /// What `find` gives of the secret whose index it is: its version that the id, the label or both name, or without
    /// them the one with AWSCURRENT. It takes no memory.
    pub fn find<'a>(
        &self,
        row: &'a SecretRow,
        id: Option<&Token>,
        label: Option<&Label>,
    ) -> Found<'a>
        requires { self.now ≡ places_of row.now }
        ensures { looked_up result ≡ lookup row.now (option_copied id.entry) (option_copied label.entry) }
    {
        match id {
            Some(id) => {
                let version = version_of(&row.versions, id);
                match label {
                    Some(label) => lookup_of_both(version, self.labelled(row, label)),
                    None => lookup_of(version),
                }
            }
            None => match label {
                Some(label) => lookup_of(self.labelled(row, label)),
                None => lookup_of(self.labelled(row, &current())),
            },
        }
    }

    /// The version that has the label.
    fn labelled<'a>(&self, row: &'a SecretRow, label: &Label) -> Option<&'a VersionRow>
        requires { self.now ≡ places_of row.now }
        ensures { option_copied result ≡ version_labelled row.now label.now }
    {
        match pair_place(row.labels.as_slice(), label) {
            Some(i) => {
                if i < self.places.len() {
                    row.versions.get(self.places[i])
                } else {
                    None
                }
            }
            None => None,
        }
    }
}

/// The place of the first pair with the label.
fn pair_place(pairs: &[Pair], label: &Label) -> Option<usize>
    ensures { result ≡ position (λ p. same_text p.label label.now) pairs.now }
{
    pairs.iter().position(|pair| is_same(&pair.label, label))
}

/// The place of the first version with the id, or how many versions there are where none has it.
#[tactic(auto, using(crate::proofs::PlaceLaws::place_found, crate::proofs::PlaceLaws::place_past))]
fn place_of(versions: &SharedList<VersionRow>, id: &Token) -> usize
    ensures { result ≡ place_of versions.now id.now }
{
    match position_of(versions, id) {
        Some(place) => place,
        None => versions.len(),
    }
}
