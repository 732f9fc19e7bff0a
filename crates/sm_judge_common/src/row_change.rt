//! The end of each change of a row.
ghost use Rattle.std.specs.Prelude.{◌≡◌};
ghost use Rattle.sm_judge_common.specs.Secrets.{finished_row};

use sm_model::SecretRow;
use sm_versions::pruning::prune_when;
use sm_versions::{When, settle};

/// Finishes a change of a row: its changed moment is this one, its job is settled, and the versions that need not be
/// kept are dropped, where they are dropped with it.
pub fn finish(row: &mut SecretRow, when: When)
    ensures { row.new ≡ finished_row row.old when }
{
    row.changed = when.moment;
    settle(row);
    prune_when(row, when);
}
