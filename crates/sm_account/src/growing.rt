//! All the memory that an entry needs.
ghost use Rattle.std.specs.Prelude.{◌≡◌, ◌≤◌, length, IfOk, OnOk, None, false};
ghost use Rattle.sm_base.specs.declared.moment.TheConstants.{LAST_READING};
ghost use Rattle.sm_core.specs.Judging.{is_reading};
ghost use Rattle.sm_forms.specs.Forms.{forms_of};
ghost use Rattle.sm_model.specs.Needed.{needed};
ghost use Rattle.sm_encoded_size.specs.Spellable.{IsSpellable};
ghost use Rattle.sm_encoded_size.specs.Texts.{HasFewTags};
ghost use Rattle.sm_table.specs.Changes.{CanMake};
ghost use Rattle.sm_account.specs.Growing.{HasCapacity, IsGrown, SameButRoom};
ghost use Rattle.sm_account.specs.Handling.{HasShortTexts};
ghost use Rattle.sm_account.specs.Outcome.{asked_entry};

use crate::account_state::AccountState;
use crate::due::Due;
use sm_disk::Disk;
use sm_encoded_size::spell;
use sm_model::{Act, Bytes, Change, Copied, Entry, Moment, NoMemory, Person, Request};
use sm_table::Block;
use std::alloc::Global;

/// Takes all the memory that the entry of an accepted request needs: a place for it, the entry and its
/// spelling, and what its change needs. The state stays.
pub fn grow_request<D: Disk>(
    inner: &mut AccountState<D>,
    person: &Person,
    moment: Moment,
    drawn: &[u8],
    request: &Request,
    change: Block<Change>,
) -> Result<Due, NoMemory>
    requires can { CanMake inner.old.table change }
    requires bound { moment.0 ≤ LAST_READING }
    requires person { HasShortTexts person.now }
    requires drawn { length drawn.now ≡ needed request.now }
    requires forms { forms_of request.now ≡ None }
    requires changes { is_reading request.now ≡ false }
    requires few { HasFewTags request.now }
    ensures grown { IfOk result (λ due. IsGrown inner.old
        (asked_entry moment person.now drawn.now request.now) change due) }
    ensures room { OnOk result (HasCapacity inner.new) }
    ensures same { SameButRoom inner.old inner.new }
{
    let entry = make_entry(inner.alloc, moment, person, drawn, request)?;
    let due = grow(inner, entry, change.into_value())?;
    Ok(due)
}

/// Takes all the memory that this entry needs. The state stays.
pub fn grow<D: Disk>(
    inner: &mut AccountState<D>,
    entry: Entry,
    change: Change,
) -> Result<Due, NoMemory>
    requires can { CanMake inner.old.table change }
    requires bound { entry.moment.0 ≤ LAST_READING }
    requires act { IsSpellable entry }
    ensures grown { IfOk result (λ due. IsGrown inner.old entry change due) }
    ensures room { OnOk result (HasCapacity inner.new) }
    ensures same { SameButRoom inner.old inner.new }
{
    let ready = spell(inner.alloc, &entry)?;
    let prepared = inner.table.prepare(change)?;
    make_room(inner)?;
    Ok(Due {
        entry,
        ready,
        prepared,
    })
}

/// Takes a place for an entry. A history has no more marks than can be counted: past that memory is wanted.
fn make_room<D: Disk>(inner: &mut AccountState<D>) -> Result<(), NoMemory>
    ensures room { OnOk result (HasCapacity inner.new) }
    ensures same { SameButRoom inner.old inner.new }
{
    if inner.marks == u64::MAX {
        return Err(NoMemory);
    }
    inner.entries.reserve(1)?;
    Ok(())
}

/// The entry of an accepted request.
fn make_entry(
    alloc: Global,
    moment: Moment,
    person: &Person,
    drawn: &[u8],
    request: &Request,
) -> Result<Entry, NoMemory>
    ensures { IfOk result (λ entry. entry ≡ asked_entry moment person.now drawn.now request.now) }
{
    let caller = person.key.copy(alloc)?;
    let by = person.arn.copy(alloc)?;
    let drawn = Bytes::from_slice(alloc, drawn)?;
    let request = request.copy(alloc)?;
    Ok(Entry {
        moment,
        caller,
        by,
        drawn,
        act: Act::Asked(request),
        prunes: true,
    })
}
