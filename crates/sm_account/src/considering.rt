//! Judging a request in the one order of refusals.
ghost use Rattle.std.specs.Prelude.{◌≡◌, ◌≤◌, length, false, None};
ghost use Rattle.sm_base.specs.Outcomes.{OrMemory};
ghost use Rattle.sm_base.specs.declared.moment.TheConstants.{LAST_READING};
ghost use Rattle.sm_access.specs.Admission.{admission};
ghost use Rattle.sm_core.specs.Effects.{entry_of, Makes};
ghost use Rattle.sm_core.specs.Histories.{LegalAct};
ghost use Rattle.sm_core.specs.Judging.{is_reading, judgement_for};
ghost use Rattle.sm_forms.specs.Forms.{forms_of};
ghost use Rattle.sm_judge_common.specs.Judged.{judged_told, IfChange};
ghost use Rattle.sm_model.specs.Needed.{needed};
ghost use Rattle.sm_model.specs.declared.entry.Act.TheVariants.{Asked};
ghost use Rattle.sm_table.specs.Changes.{CanMake, StandsAt};
ghost use Rattle.sm_table.specs.Sound.{ChangeSound, Sound};
ghost use Rattle.sm_table.specs.Sweep.{sweep};
ghost use Rattle.sm_account.specs.Outcome.{considered, unless_denied};
ghost use Rattle.sm_versions.specs.Prune.{pruning};

use crate::tested::TestedRequest;
use sm_core::{Admitted, Judged, admit, judge};
use sm_model::{Moment, Person, Request, Why};
use sm_table::Table;
use sm_versions::When;
use std::alloc::Global;

/// Judges a request of a person at a moment, with the random bytes that were drawn for it: the forms of its members,
/// which were tested, whether the person may make it, and the tests on the rows.
pub fn consider(
    alloc: Global,
    table: &Table,
    person: &Person,
    moment: Moment,
    drawn: &[u8],
    tested: TestedRequest<'_>,
) -> Judged
    requires sound { Sound table.now }
    requires moment { moment.0 ≤ LAST_READING }
    requires drawn { length drawn.now ≡ needed tested.request.now }
    ensures considered { OrMemory (judged_told result)
        (considered table.now person.now moment drawn.now tested.entry.request.now) }

    // A change makes the rows of the entry, can be made, stands at its moment, and leaves the rows sound; and its
    // request is legal at the rows, and none that only reads.
    ensures makes { IfChange result
        (Makes table.now (entry_of (pruning moment) person.now.key drawn.now tested.entry.request.now)) }
    ensures can { IfChange result (CanMake table.now) }
    ensures stands { IfChange result (StandsAt table.now moment) }
    ensures change_sound { IfChange result (ChangeSound (sweep table.now moment)) }
    ensures legal { IfChange result
        (λ _. LegalAct table.now (pruning moment) drawn.now (Asked tested.entry.request.now)) }
    ensures changes { IfChange result (λ _. is_reading tested.entry.request.now ≡ false) }
{
    let TestedRequest { request, malformed } = tested;
    match malformed {
        Some(Why::Memory { .. }) => Judged::Memory,
        Some(why) => Judged::Refuse(why),
        None => judge_admitted(alloc, table, person, moment, drawn, request),
    }
}

/// Judges a request whose members are in their forms.
#[tactic(auto, using(crate::proofs::ConsiderLemmas::request_changes))]
fn judge_admitted(
    alloc: Global,
    table: &Table,
    person: &Person,
    moment: Moment,
    drawn: &[u8],
    request: &Request,
) -> Judged
    requires sound { Sound table.now }
    requires moment { moment.0 ≤ LAST_READING }
    requires forms { forms_of request.now ≡ None }
    requires drawn { length drawn.now ≡ needed request.now }
    ensures considered { OrMemory (judged_told result) (unless_denied
        (admission table.now person.now moment request.now)
        (judgement_for table.now person.now (pruning moment) drawn.now request.now)) }
    ensures makes { IfChange result (Makes table.now (entry_of (pruning moment) person.now.key drawn.now request.now)) }
    ensures can { IfChange result (CanMake table.now) }
    ensures stands { IfChange result (StandsAt table.now moment) }
    ensures change_sound { IfChange result (ChangeSound (sweep table.now moment)) }
    ensures legal { IfChange result (λ _. LegalAct table.now (pruning moment) drawn.now (Asked request.now)) }
    ensures changes { IfChange result (λ _. is_reading request.now ≡ false) }
{
    match admit(alloc, table, person, moment, request) {
        Admitted::Ok => judge(alloc, table, person, When::pruning(moment), drawn, request),
        Admitted::Denied(statement) => Judged::Refuse(Why::Denied(statement)),
        Admitted::Memory => Judged::Memory,
    }
}
