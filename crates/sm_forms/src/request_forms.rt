//! The forms of a request, by its operation.
ghost use Rattle.sm_forms.specs.Forms.{Refuses, forms_of};
ghost use Rattle.sm_forms.specs.Policies.{OrNoMemory};

use crate::batch_get_secret_value::batch_forms;
use crate::create_secret::create_forms;
use crate::delete_secret::delete_forms;
use crate::get_random_password::password_forms;
use crate::get_secret_value::get_forms;
use crate::list_secret_version_ids::list_versions_forms;
use crate::list_secrets::list_forms;
use crate::of_secret::of_secret_forms;
use crate::put_resource_policy::put_policy_forms;
use crate::put_secret_value::put_forms;
use crate::regions_of_secret::{remove_regions_forms, replicate_forms};
use crate::rotate_secret::rotate_forms;
use crate::tag_resource::tag_forms;
use crate::untag_resource::untag_forms;
use crate::update_secret::update_forms;
use crate::update_secret_version_stage::move_forms;
use crate::validate_resource_policy::validate_forms;
use sm_model::{Request, Why};
use std::alloc::Global;

/// The first form or joint test that fails, or none. `Why::Memory` is out of memory, which only the text of a policy
/// takes.
pub fn forms(alloc: Global, request: &Request) -> Option<Why>
    ensures wanted { OrNoMemory result (forms_of request.now) }
    ensures exact { Refuses request.now result }
{
    match request {
        Request::BatchGetSecretValue(batch) => batch_forms(batch),
        Request::CancelRotateSecret(cancel) => of_secret_forms(cancel),
        Request::CreateSecret(create) => create_forms(create),
        Request::DeleteResourcePolicy(delete) => of_secret_forms(delete),
        Request::DeleteSecret(delete) => delete_forms(delete),
        Request::DescribeSecret(describe) => of_secret_forms(describe),
        Request::GetRandomPassword(get) => password_forms(get),
        Request::GetResourcePolicy(get) => of_secret_forms(get),
        Request::GetSecretValue(get) => get_forms(get),
        Request::ListSecretVersionIds(list) => list_versions_forms(list),
        Request::ListSecrets(list) => list_forms(list),
        Request::PutResourcePolicy(put) => put_policy_forms(alloc, put),
        Request::PutSecretValue(put) => put_forms(put),
        Request::RemoveRegionsFromReplication(remove) => remove_regions_forms(remove),
        Request::ReplicateSecretToRegions(replicate) => replicate_forms(replicate),
        Request::RestoreSecret(restore) => of_secret_forms(restore),
        Request::RotateSecret(rotate) => rotate_forms(rotate),
        Request::StopReplicationToReplica(stop) => of_secret_forms(stop),
        Request::TagResource(tag) => tag_forms(tag),
        Request::UntagResource(untag) => untag_forms(untag),
        Request::UpdateSecret(update) => update_forms(update),
        Request::UpdateSecretVersionStage(update) => move_forms(update),
        Request::ValidateResourcePolicy(validate) => validate_forms(validate),
    }
}
