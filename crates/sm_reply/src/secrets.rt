//! The replies about one secret or one of its versions.
ghost use Rattle.std.specs.Prelude.{◌≡◌, OnOk};
ghost use Rattle.sm_reply.specs.Tokens.{members_behind};
ghost use Rattle.sm_reply.specs.Shown.{replication_members, created_members, replicated_members, promoted_members, versioned_members, named_members, put_members, got_members, deleted_members, password_members, policy_members};

use crate::members::{put, put_if};
use crate::out::Out;
use crate::render::Render;
use sm_model::{
    CreatedSecret, DeletedSecret, GotSecret, NamedSecret, NoMemory, PolicyOfSecret, PromotedSecret,
    PutValue, RandomPassword, ReplicatedSecret, ReplicationStatus, VersionedSecret,
};
use std::alloc::Global;

/// The members of a replica region.
fn replication_members(
    alloc: Global,
    out: &mut Out,
    status: &ReplicationStatus,
) -> Result<(), NoMemory>
    ensures { OnOk result (out.new ≡ members_behind (replication_members status.now) out.old) }
{
    put(alloc, out, "Region", &status.region)?;
    put(alloc, out, "Status", &status.status)?;
    Ok(())
}

// A replica region of a secret.
impl Render for ReplicationStatus {
    ghost use Rattle.sm_reply.specs.Shown.{replication_object};

    ghost shows = { replication_object };

    #[tactic(auto, using(crate::proofs::TokenLemmas::object_written))]
    fn render(&self, alloc: Global, out: &mut Out) -> Result<(), NoMemory> {
        out.begin_object()?;
        replication_members(alloc, out, self)?;
        out.end_object()?;
        Ok(())
    }
}

/// The members of the reply to CreateSecret.
pub fn created_members(alloc: Global, out: &mut Out, reply: &CreatedSecret) -> Result<(), NoMemory>
    ensures { OnOk result (out.new ≡ members_behind (created_members reply.now) out.old) }
{
    put(alloc, out, "ARN", &reply.arn)?;
    put(alloc, out, "Name", &reply.name)?;
    put_if(alloc, out, "ReplicationStatus", &reply.replication_status)?;
    put_if(alloc, out, "VersionId", &reply.version_id)?;
    Ok(())
}

/// The members of the reply to RemoveRegionsFromReplication and ReplicateSecretToRegions.
pub fn replicated_members(
    alloc: Global,
    out: &mut Out,
    reply: &ReplicatedSecret,
) -> Result<(), NoMemory>
    ensures { OnOk result (out.new ≡ members_behind (replicated_members reply.now) out.old) }
{
    put(alloc, out, "ARN", &reply.arn)?;
    put(alloc, out, "ReplicationStatus", &reply.replication_status)?;
    Ok(())
}

/// The members of the reply to StopReplicationToReplica.
pub fn promoted_members(
    alloc: Global,
    out: &mut Out,
    reply: &PromotedSecret,
) -> Result<(), NoMemory>
    ensures { OnOk result (out.new ≡ members_behind (promoted_members reply.now) out.old) }
{
    put(alloc, out, "ARN", &reply.arn)?;
    Ok(())
}

/// The members of the reply to CancelRotateSecret, RotateSecret and UpdateSecret.
pub fn versioned_members(
    alloc: Global,
    out: &mut Out,
    reply: &VersionedSecret,
) -> Result<(), NoMemory>
    ensures { OnOk result (out.new ≡ members_behind (versioned_members reply.now) out.old) }
{
    put(alloc, out, "ARN", &reply.arn)?;
    put(alloc, out, "Name", &reply.name)?;
    put_if(alloc, out, "VersionId", &reply.version_id)?;
    Ok(())
}

/// The members of a reply that names the secret and says nothing else.
pub fn named_members(alloc: Global, out: &mut Out, reply: &NamedSecret) -> Result<(), NoMemory>
    ensures { OnOk result (out.new ≡ members_behind (named_members reply.now) out.old) }
{
    put(alloc, out, "ARN", &reply.arn)?;
    put(alloc, out, "Name", &reply.name)?;
    Ok(())
}

/// The members of the reply to PutSecretValue.
pub fn put_members(alloc: Global, out: &mut Out, reply: &PutValue) -> Result<(), NoMemory>
    ensures { OnOk result (out.new ≡ members_behind (put_members reply.now) out.old) }
{
    put(alloc, out, "ARN", &reply.arn)?;
    put(alloc, out, "Name", &reply.name)?;
    put(alloc, out, "VersionId", &reply.version_id)?;
    put(alloc, out, "VersionStages", &reply.version_stages)?;
    Ok(())
}

/// The members of the reply to GetSecretValue.
pub fn got_members(alloc: Global, out: &mut Out, reply: &GotSecret) -> Result<(), NoMemory>
    ensures { OnOk result (out.new ≡ members_behind (got_members reply.now) out.old) }
{
    put(alloc, out, "ARN", &reply.arn)?;
    put(alloc, out, "CreatedDate", &reply.created_date)?;
    put(alloc, out, "Name", &reply.name)?;
    put_if(alloc, out, "SecretBinary", &reply.secret_binary)?;
    put_if(alloc, out, "SecretString", &reply.secret_string)?;
    put(alloc, out, "VersionId", &reply.version_id)?;
    put(alloc, out, "VersionStages", &reply.version_stages)?;
    Ok(())
}

/// The members of the reply to DeleteSecret.
pub fn deleted_members(alloc: Global, out: &mut Out, reply: &DeletedSecret) -> Result<(), NoMemory>
    ensures { OnOk result (out.new ≡ members_behind (deleted_members reply.now) out.old) }
{
    put_if(alloc, out, "ARN", &reply.arn)?;
    put(alloc, out, "DeletionDate", &reply.deletion_date)?;
    put(alloc, out, "Name", &reply.name)?;
    Ok(())
}

/// The members of the reply to GetRandomPassword.
pub fn password_members(
    alloc: Global,
    out: &mut Out,
    reply: &RandomPassword,
) -> Result<(), NoMemory>
    ensures { OnOk result (out.new ≡ members_behind (password_members reply.now) out.old) }
{
    put(alloc, out, "RandomPassword", &reply.random_password)?;
    Ok(())
}

/// The members of the reply to GetResourcePolicy.
pub fn policy_members(alloc: Global, out: &mut Out, reply: &PolicyOfSecret) -> Result<(), NoMemory>
    ensures { OnOk result (out.new ≡ members_behind (policy_members reply.now) out.old) }
{
    put(alloc, out, "ARN", &reply.arn)?;
    put(alloc, out, "Name", &reply.name)?;
    put_if(alloc, out, "ResourcePolicy", &reply.resource_policy)?;
    Ok(())
}

impl Render for GotSecret {
    ghost use Rattle.sm_reply.specs.Shown.{got_object};

    ghost shows = { got_object };

    #[tactic(auto, using(crate::proofs::TokenLemmas::object_written))]
    fn render(&self, alloc: Global, out: &mut Out) -> Result<(), NoMemory> {
        out.begin_object()?;
        got_members(alloc, out, self)?;
        out.end_object()?;
        Ok(())
    }
}
