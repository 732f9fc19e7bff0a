//! Rows that were read, gathered.
ghost use Rattle.std.specs.Prelude.{◌≡◌, ◌+◌, ◌<◌, ◌≤◌, None, suc, ℕ, [], ◌∷◌, ◌++◌, length, IsTrue, IfOk, OnOk};
ghost use Rattle.sm_base.specs.declared.limits.TheConstants.{SECRETS_LIMIT};
ghost use Rattle.sm_versions.specs.Texts.{once};
ghost use Rattle.sm_table.specs.Changes.{row_with};
ghost use Rattle.sm_table.specs.Found.{row_named};
ghost use Rattle.sm_table.specs.Indexed.{HasRoom, IsIndexed};
ghost use Rattle.sm_table.specs.Kept.{row_names, IsRising};

use crate::indexed::Indexed;
use crate::kept::Kept;
use sm_model::{Copied, NoMemory, SecretRow};
use std::alloc::Global;

/// Copies of the rows, with room for so many more.
pub fn gathered(alloc: Global, rows: &[SecretRow], left: u64) -> Result<Indexed, NoMemory>
    requires rising { IsRising rows.now }
    requires names { IsTrue (once (row_names rows.now)) }
    requires count { length rows.now ≤ SECRETS_LIMIT }
    requires few { left < 1024 }
    ensures kept { IfOk result IsIndexed }
    ensures rows { IfOk result (λ indexed. indexed.rows.list ≡ rows.now) }
    ensures left { IfOk result (λ indexed. indexed.left ≡ left) }
    ensures room { IfOk result (λ indexed. HasRoom indexed left) }
{
    let mut indexed = Indexed::with_room(alloc, rows.len() + left as usize, left)?;
    for row in rows {
        gather(alloc, &mut indexed, row)?;
    }
    Ok(indexed)
}

/// Adds a copy of a row at the end, where there is room.
fn gather(alloc: Global, indexed: &mut Indexed, row: &SecretRow) -> Result<(), NoMemory>
    requires kept { IsIndexed indexed.old }
    requires new_serial { row_with indexed.old.rows.list row.now.serial ≡ None }
    requires new_name { row_named indexed.old.rows.list row.now.name ≡ None }
    requires rising { IsRising (indexed.old.rows.list ++ row.now ∷ []) }
    requires room { HasRoom indexed.old 1 }
    ensures kept { OnOk result (IsIndexed indexed.new) }
    ensures rows { OnOk result (indexed.new.rows.list ≡ indexed.old.rows.list ++ row.now ∷ []) }
    ensures left { OnOk result (indexed.new.left ≡ indexed.old.left) }
    ensures room { OnOk result ((count : ℕ) → HasRoom indexed.old (suc count) → HasRoom indexed.new count) }
{
    let name = Vec::from_slice(alloc, row.name.as_text().as_bytes())?;
    let kept = Kept::of(alloc, row.copy(alloc)?)?;
    indexed.push(kept, name);
    Ok(())
}
