//! Deletion dates.
ghost use Rattle.std.specs.Prelude.{◌≡◌};
ghost use Rattle.sm_table.specs.Sweep.{is_gone};

use sm_model::{Moment, SecretRow};
use sm_versions::is_reached;

/// Whether the secret's deletion date is reached.
pub fn is_gone(row: &SecretRow, moment: Moment) -> bool
    ensures { result ≡ is_gone row.now moment }
{
    is_reached(row.deletion, moment)
}
