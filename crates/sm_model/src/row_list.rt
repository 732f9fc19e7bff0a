//! Lists of rows, however they are kept.
ghost use Rattle.std.specs.Prelude.{◌≡◌, List, length, slice_get, option_copied};
ghost use Rattle.sm_model.specs.declared.rows.SecretRow.{SecretRow};

use crate::rows::{Rows, SecretRow};

/// Rows that can be gone through in order of creation.
pub trait RowList {
    ghost rows: { Self → List SecretRow };

    /// How many rows there are.
    fn count(&self) -> usize
        ensures { result ≡ length (rows self.now) };

    /// The row at a place, counted from 0.
    fn at(&self, i: usize) -> Option<&SecretRow>
        ensures { option_copied result ≡ slice_get (rows self.now) i };
}

impl RowList for Rows {
    ghost rows = { λ rows. rows.secrets };

    fn count(&self) -> usize {
        self.secrets.len()
    }

    fn at(&self, i: usize) -> Option<&SecretRow> {
        self.secrets.get(i)
    }
}
