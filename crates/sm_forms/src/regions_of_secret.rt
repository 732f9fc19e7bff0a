//! The forms of the operations that name a secret and regions (AWS Secrets Manager API Reference,
//! RemoveRegionsFromReplication, ReplicateSecretToRegions).
ghost use Rattle.std.specs.Prelude.{◌≡◌};
ghost use Rattle.sm_forms.specs.RegionsOfSecret.{regions_forms, replicate_forms, remove_regions_forms};

use crate::members::{first_refusal, form_unless};
use sm_base::spelled::is_secret_id;
use sm_model::{RegionsOfSecret, Why};
use sm_versions::regions::are_regions;

/// The first form that fails, where the regions have a member of this name.
fn regions_forms(of: &RegionsOfSecret, member: &'static str) -> Option<Why>
    ensures { result ≡ regions_forms member.now of.now }
{
    first_refusal!(
        form_unless(are_regions(of.regions.as_slice()), member),
        form_unless(is_secret_id(of.secret_id.as_bytes()), "SecretId"),
    )
}

/// The first form of a ReplicateSecretToRegions that fails.
pub fn replicate_forms(replicate: &RegionsOfSecret) -> Option<Why>
    ensures { result ≡ replicate_forms replicate.now }
{
    regions_forms(replicate, "AddReplicaRegions")
}

/// The first form of a RemoveRegionsFromReplication that fails.
pub fn remove_regions_forms(remove: &RegionsOfSecret) -> Option<Why>
    ensures { result ≡ remove_regions_forms remove.now }
{
    regions_forms(remove, "RemoveReplicaRegions")
}
