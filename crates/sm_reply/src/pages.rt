//! The replies that describe secrets and list their versions.
ghost use Rattle.std.specs.Prelude.{◌≡◌, OnOk};
ghost use Rattle.sm_reply.specs.Tokens.{members_behind};
ghost use Rattle.sm_reply.specs.Shown.{rules_members, tag_members, version_members, first_members, middle_members, rotation_members, described_members, listed_members, page_members, versions_members};

use crate::members::{put, put_if};
use crate::out::Out;
use crate::render::Render;
use crate::versions::write_versions;
use sm_model::{Described, NoMemory, RulesShown, SecretPage, Tag, VersionItem, VersionPage};
use std::alloc::Global;

/// The members of rotation rules.
fn rules_members(alloc: Global, out: &mut Out, rules: &RulesShown) -> Result<(), NoMemory>
    ensures { OnOk result (out.new ≡ members_behind (rules_members rules.now) out.old) }
{
    put_if(alloc, out, "AutomaticallyAfterDays", &rules.days)?;
    put_if(alloc, out, "ScheduleExpression", &rules.schedule)?;
    Ok(())
}

impl Render for RulesShown {
    ghost use Rattle.sm_reply.specs.Shown.{rules_object};

    ghost shows = { rules_object };

    #[tactic(auto, using(crate::proofs::TokenLemmas::object_written))]
    fn render(&self, alloc: Global, out: &mut Out) -> Result<(), NoMemory> {
        out.begin_object()?;
        rules_members(alloc, out, self)?;
        out.end_object()?;
        Ok(())
    }
}

/// The members of a tag.
fn tag_members(alloc: Global, out: &mut Out, tag: &Tag) -> Result<(), NoMemory>
    ensures { OnOk result (out.new ≡ members_behind (tag_members tag.now) out.old) }
{
    put(alloc, out, "Key", &tag.key)?;
    put(alloc, out, "Value", &tag.value)?;
    Ok(())
}

impl Render for Tag {
    ghost use Rattle.sm_reply.specs.Shown.{tag_object};

    ghost shows = { tag_object };

    #[tactic(auto, using(crate::proofs::TokenLemmas::object_written))]
    fn render(&self, alloc: Global, out: &mut Out) -> Result<(), NoMemory> {
        out.begin_object()?;
        tag_members(alloc, out, self)?;
        out.end_object()?;
        Ok(())
    }
}

/// Puts the first members of a description.
fn put_first(alloc: Global, out: &mut Out, reply: &Described) -> Result<(), NoMemory>
    ensures { OnOk result (out.new ≡ members_behind (first_members reply.now) out.old) }
{
    put(alloc, out, "ARN", &reply.arn)?;
    put(alloc, out, "CreatedDate", &reply.created_date)?;
    put_if(alloc, out, "DeletedDate", &reply.deleted_date)?;
    put_if(alloc, out, "Description", &reply.description)?;
    put_if(alloc, out, "KmsKeyId", &reply.kms_key_id)?;
    Ok(())
}

/// Puts the members of a description behind those.
fn put_middle(alloc: Global, out: &mut Out, reply: &Described) -> Result<(), NoMemory>
    ensures { OnOk result (out.new ≡ members_behind (middle_members reply.now) out.old) }
{
    put(alloc, out, "LastChangedDate", &reply.last_changed_date)?;
    put_if(alloc, out, "LastRotatedDate", &reply.last_rotated_date)?;
    put(alloc, out, "Name", &reply.name)?;
    put_if(alloc, out, "NextRotationDate", &reply.next_rotation_date)?;
    put_if(alloc, out, "ReplicationStatus", &reply.replication_status)?;
    Ok(())
}

/// Puts the members of a description's rotation.
fn put_rotation(alloc: Global, out: &mut Out, reply: &Described) -> Result<(), NoMemory>
    ensures { OnOk result (out.new ≡ members_behind (rotation_members reply.now) out.old) }
{
    put(alloc, out, "RotationEnabled", &reply.rotation_enabled)?;
    put_if(alloc, out, "RotationLambdaARN", &reply.rotation_lambda_arn)?;
    put_if(alloc, out, "RotationRules", &reply.rotation_rules)?;
    Ok(())
}

/// The members of the reply to DescribeSecret.
pub fn described_members(alloc: Global, out: &mut Out, reply: &Described) -> Result<(), NoMemory>
    ensures { OnOk result (out.new ≡ members_behind (described_members reply.now) out.old) }
{
    put_first(alloc, out, reply)?;
    put_middle(alloc, out, reply)?;
    put_rotation(alloc, out, reply)?;
    put(alloc, out, "Tags", &reply.tags)?;
    out.name("VersionIdsToStages")?;
    write_versions(alloc, out, &reply.version_ids_to_stages)?;
    Ok(())
}

/// The members of an item of ListSecrets.
fn listed_members(alloc: Global, out: &mut Out, reply: &Described) -> Result<(), NoMemory>
    ensures { OnOk result (out.new ≡ members_behind (listed_members reply.now) out.old) }
{
    put_first(alloc, out, reply)?;
    put_middle(alloc, out, reply)?;
    put_rotation(alloc, out, reply)?;
    out.name("SecretVersionsToStages")?;
    write_versions(alloc, out, &reply.version_ids_to_stages)?;
    put(alloc, out, "Tags", &reply.tags)?;
    Ok(())
}

// An item of ListSecrets.
impl Render for Described {
    ghost use Rattle.sm_reply.specs.Shown.{listed_object};

    ghost shows = { listed_object };

    #[tactic(auto, using(crate::proofs::TokenLemmas::object_written))]
    fn render(&self, alloc: Global, out: &mut Out) -> Result<(), NoMemory> {
        out.begin_object()?;
        listed_members(alloc, out, self)?;
        out.end_object()?;
        Ok(())
    }
}

/// The members of the reply to ListSecrets.
pub fn page_members(alloc: Global, out: &mut Out, reply: &SecretPage) -> Result<(), NoMemory>
    ensures { OnOk result (out.new ≡ members_behind (page_members reply.now) out.old) }
{
    put_if(alloc, out, "NextToken", &reply.next_token)?;
    put(alloc, out, "SecretList", &reply.secret_list)?;
    Ok(())
}

/// The members of a version.
fn version_members(alloc: Global, out: &mut Out, version: &VersionItem) -> Result<(), NoMemory>
    ensures { OnOk result (out.new ≡ members_behind (version_members version.now) out.old) }
{
    put(alloc, out, "CreatedDate", &version.created_date)?;
    put(alloc, out, "VersionId", &version.version_id)?;
    put_if(alloc, out, "VersionStages", &version.version_stages)?;
    Ok(())
}

impl Render for VersionItem {
    ghost use Rattle.sm_reply.specs.Shown.{version_object};

    ghost shows = { version_object };

    #[tactic(auto, using(crate::proofs::TokenLemmas::object_written))]
    fn render(&self, alloc: Global, out: &mut Out) -> Result<(), NoMemory> {
        out.begin_object()?;
        version_members(alloc, out, self)?;
        out.end_object()?;
        Ok(())
    }
}

/// The members of the reply to ListSecretVersionIds.
pub fn versions_members(alloc: Global, out: &mut Out, reply: &VersionPage) -> Result<(), NoMemory>
    ensures { OnOk result (out.new ≡ members_behind (versions_members reply.now) out.old) }
{
    put(alloc, out, "ARN", &reply.arn)?;
    put(alloc, out, "Name", &reply.name)?;
    put_if(alloc, out, "NextToken", &reply.next_token)?;
    put(alloc, out, "Versions", &reply.versions)?;
    Ok(())
}
