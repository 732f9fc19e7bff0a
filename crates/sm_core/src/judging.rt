//! Judging a request on the secrets of an account.
ghost use Rattle.std.specs.Prelude.{◌≡◌, ◌≤◌, false, IfOk, IsSome, None, length};
ghost use Rattle.sm_base.specs.Outcomes.{OrMemory};
ghost use Rattle.sm_base.specs.declared.moment.TheConstants.{LAST_READING};
ghost use Rattle.sm_core.specs.Effects.{entry_of, Makes};
ghost use Rattle.sm_core.specs.Histories.{LegalAct};
ghost use Rattle.sm_core.specs.Judging.{judgement_for, judgement, is_batch, refusal, IsUnchanged};
ghost use Rattle.sm_forms.specs.Forms.{forms_of};
ghost use Rattle.sm_judge_common.specs.Judged.{judged_told, refusal_told, IfAccepted, IfChange};
ghost use Rattle.sm_model.specs.Needed.{needed};
ghost use Rattle.sm_model.specs.declared.entry.Act.TheVariants.{Asked};
ghost use Rattle.sm_table.specs.Changes.{CanMake, StandsAt};
ghost use Rattle.sm_table.specs.Sound.{ChangeSound, Sound};
ghost use Rattle.sm_table.specs.Sweep.{sweep};

use sm_judge_common::Judged;
use sm_judge_deletion_and_tags::delete_secret::judge_delete;
use sm_judge_deletion_and_tags::restore_secret::judge_restore;
use sm_judge_deletion_and_tags::tag_resource::judge_tag;
use sm_judge_deletion_and_tags::untag_resource::judge_untag;
use sm_judge_labels_and_regions::remove_regions_from_replication::judge_remove;
use sm_judge_labels_and_regions::replicate_secret_to_regions::judge_replicate;
use sm_judge_labels_and_regions::stop_replication_to_replica::judge_stop;
use sm_judge_labels_and_regions::update_secret_version_stage::judge_move;
use sm_judge_lists_and_passwords::batch_get_secret_value::judge_batch;
use sm_judge_lists_and_passwords::get_random_password::judge_password;
use sm_judge_lists_and_passwords::list_secret_version_ids::judge_versions;
use sm_judge_lists_and_passwords::list_secrets::judge_list;
use sm_judge_policies::delete_resource_policy::judge_delete_policy;
use sm_judge_policies::get_resource_policy::judge_get_policy;
use sm_judge_policies::put_resource_policy::judge_put_policy;
use sm_judge_policies::validate_resource_policy::judge_validate;
use sm_judge_reads::describe_secret::judge_describe;
use sm_judge_reads::get_secret_value::judge_get;
use sm_judge_rotations::cancel_rotate_secret::judge_cancel;
use sm_judge_rotations::rotate_secret::judge_rotate;
use sm_judge_values::create_secret::judge_create;
use sm_judge_values::put_secret_value::judge_put;
use sm_judge_values::update_secret::judge_update;
use sm_model::{NoMemory, Person, Request};
use sm_table::Table;
use sm_versions::When;
use std::alloc::Global;

/// Judges a request of a person at a moment, with the random bytes that were drawn for it.
pub fn judge(
    alloc: Global,
    table: &Table,
    person: &Person,
    when: When,
    drawn: &[u8],
    request: &Request,
) -> Judged
    requires sound { Sound table.now }
    requires moment { when.moment.0 ≤ LAST_READING }
    requires forms { forms_of request.now ≡ None }
    requires drawn { length drawn.now ≡ needed request.now }

    // The judgement is never lack of memory, so that only this call can answer it.
    ensures judged { OrMemory (judged_told result)
        (judgement_for table.now person.now when drawn.now request.now) }
    ensures judgement_is_no_memory { IsSome
        (judged_told (judgement_for table.now person.now when drawn.now request.now)) }

    // It is refused exactly by the first test that fails, and nothing is changed exactly by what only reads, by the
    // forced deletion of a secret that is not there, and by a repeat.
    ensures refused { OrMemory (refusal_told result) (refusal table.now when drawn.now request.now) }
    ensures unchanged { IfAccepted result (IsUnchanged table.now when.moment drawn.now request.now) }

    // A change makes the rows of the entry, which is legal, meets what the table asks of a change, and leaves the rows
    // sound.
    ensures legal { IfChange result (λ _. LegalAct table.now when drawn.now (Asked request.now)) }
    ensures makes { IfChange result (Makes table.now (entry_of when person.now.key drawn.now request.now)) }
    ensures can { IfChange result (CanMake table.now) }
    ensures stands { IfChange result (StandsAt table.now when.moment) }
    ensures change_sound { IfChange result (ChangeSound (sweep table.now when.moment)) }
{
    match judge_exactly(alloc, table, person, when, drawn, request) {
        Ok(judged) => judged,
        Err(NoMemory) => Judged::Memory,
    }
}

/// Judges a request of a person, also on rows of which nothing is known.
pub fn judge_exactly(
    alloc: Global,
    table: &Table,
    person: &Person,
    when: When,
    drawn: &[u8],
    request: &Request,
) -> Result<Judged, NoMemory>
    requires moment { when.moment.0 ≤ LAST_READING }
    requires forms { forms_of request.now ≡ None }
    requires drawn { length drawn.now ≡ needed request.now }
    ensures { IfOk result
        (λ judged. judged ≡ judgement_for table.now person.now when drawn.now request.now) }
{
    match request {
        Request::BatchGetSecretValue(batch) => judge_batch(
            alloc,
            table,
            person,
            when.moment,
            batch,
        ),
        _ => judge_alone(alloc, table, when, drawn, request),
    }
}

/// Whether a request asks for several values.
pub(crate) fn is_batch(request: &Request) -> bool
    ensures { result ≡ is_batch request.now }
{
    match request {
        Request::BatchGetSecretValue(_) => true,
        _ => false,
    }
}

/// Judges a request that is no batch, whoever asks.
pub(crate) fn judge_alone(
    alloc: Global,
    table: &Table,
    when: When,
    drawn: &[u8],
    request: &Request,
) -> Result<Judged, NoMemory>
    requires alone { is_batch request.now ≡ false }
    requires moment { when.moment.0 ≤ LAST_READING }
    requires forms { forms_of request.now ≡ None }
    requires drawn { length drawn.now ≡ needed request.now }
    ensures { IfOk result (λ judged. judged ≡ judgement table.now when drawn.now request.now) }
{
    match request {
        Request::BatchGetSecretValue(_) => unreachable!(),
        Request::CancelRotateSecret(cancel) => judge_cancel(alloc, table, when, cancel),
        Request::CreateSecret(create) => judge_create(alloc, table, when.moment, drawn, create),
        Request::DeleteResourcePolicy(delete) => judge_delete_policy(alloc, table, when, delete),
        Request::DeleteSecret(delete) => judge_delete(alloc, table, when, delete),
        Request::DescribeSecret(describe) => judge_describe(alloc, table, when.moment, describe),
        Request::GetRandomPassword(get) => judge_password(alloc, drawn, get),
        Request::GetResourcePolicy(get) => judge_get_policy(alloc, table, when.moment, get),
        Request::GetSecretValue(get) => judge_get(alloc, table, when.moment, get),
        Request::ListSecretVersionIds(list) => judge_versions(alloc, table, when.moment, list),
        Request::ListSecrets(list) => judge_list(alloc, table, when.moment, list),
        Request::PutResourcePolicy(put) => judge_put_policy(alloc, table, when, put),
        Request::PutSecretValue(put) => judge_put(alloc, table, when, drawn, put),
        Request::RemoveRegionsFromReplication(remove) => judge_remove(alloc, table, when, remove),
        Request::ReplicateSecretToRegions(replicate) => judge_replicate(
            alloc, table, when, replicate,
        ),
        Request::RestoreSecret(restore) => judge_restore(alloc, table, when, restore),
        Request::RotateSecret(rotate) => judge_rotate(alloc, table, when, drawn, rotate),
        Request::StopReplicationToReplica(stop) => judge_stop(alloc, table, when.moment, stop),
        Request::TagResource(tag) => judge_tag(alloc, table, when, tag),
        Request::UntagResource(untag) => judge_untag(alloc, table, when, untag),
        Request::UpdateSecret(update) => judge_update(alloc, table, when, drawn, update),
        Request::UpdateSecretVersionStage(update) => judge_move(alloc, table, when, update),
        Request::ValidateResourcePolicy(validate) => judge_validate(
            alloc,
            table,
            when.moment,
            validate,
        ),
    }
}
