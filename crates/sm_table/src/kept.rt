//! A row as a table keeps it.
ghost use Rattle.std.specs.Prelude.{◌≡◌, IfOk, option_copied};
ghost use Rattle.sm_versions.specs.Find.{looked_up, lookup};

use crate::block::Block;
use sm_model::{Label, NoMemory, SecretRow, Token};
use sm_versions::{Found, LabelIndex};
use std::alloc::Global;
use std::marker::Model;

/// A row in a block of its own with an index of its labels, which contracts see as the row.
#[derive(Drop)]
pub struct Kept {
    row: Block<SecretRow>,
    labels: LabelIndex,
}

impl Model for Kept {
    ghost use Rattle.std.specs.Prelude.{◌≡◌};
    ghost use Rattle.sm_model.specs.declared.rows.SecretRow.{SecretRow};
    ghost use Rattle.sm_versions.specs.Places.{places_of};

    ghost Value = { SecretRow };

    ghost view = { λ kept. kept.row };

    ghost invariant = { λ kept. kept.labels ≡ places_of kept.row };
}

impl Kept {
    /// The row, with the index of its labels.
    pub fn of(alloc: Global, row: SecretRow) -> Result<Kept, NoMemory>
        ensures { IfOk result (λ kept. kept ≡ row) }
    {
        let labels = LabelIndex::of(alloc, &row)?;
        let row = Block::new(alloc, row)?;
        Ok(Kept { row, labels })
    }

    pub fn row(&self) -> &SecretRow
        ensures { result.now ≡ self.now }
    {
        self.row.value()
    }

    /// The version that the id, the label or both name, or without them the one with AWSCURRENT. It takes no memory.
    pub fn find_version(&self, id: Option<&Token>, label: Option<&Label>) -> Found<'_>
        ensures { looked_up result ≡ lookup self.now (option_copied id.entry) (option_copied label.entry) }
    {
        self.labels.find(self.row.value(), id, label)
    }
}
