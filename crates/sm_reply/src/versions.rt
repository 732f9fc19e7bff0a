//! The versions of a secret as the members of one object.
ghost use Rattle.std.specs.Prelude.{◌≡◌, ◌++◌, IfOk, OnOk};
ghost use Rattle.serde_json.specs.Data.{no_members};
ghost use Rattle.sm_reply.specs.Shown.{put_versions, versions_object};
ghost use Rattle.sm_reply.specs.Tokens.{behind, value_tokens};
ghost use Rattle.sm_reply.specs.Versions.{staged_members};

use crate::out::Out;
use crate::render::Render;
use sm_model::{Label, List, NoMemory, Staged};
use std::alloc::Global;
use std::collections::BTreeMap;

/// Writes the versions that have labels, each by its id with its labels, in the order of the ids.
#[tactic(auto, using(crate::proofs::TokenLemmas::members_written))]
pub fn write_versions(alloc: Global, out: &mut Out, versions: &List<Staged>) -> Result<(), NoMemory>
    ensures { OnOk result (out.new ≡ out.old ++ value_tokens (versions_object versions.now)) }
{
    let staged = by_id(alloc, versions.as_slice())?;
    out.begin_object()?;
    write_members(alloc, out, &staged)?;
    out.end_object()?;
    Ok(())
}

/// The labels of each version by its id. Of an id the last version counts.
#[tactic(auto, using(crate::proofs::VersionLemmas::staged_more, crate::proofs::VersionLemmas::staged_all))]
fn by_id<'a>(
    alloc: Global,
    versions: &'a [Staged],
) -> Result<BTreeMap<&'a str, &'a List<Label>>, NoMemory>
    ensures { IfOk result (λ staged. staged_members staged.entries ≡ put_versions versions.now no_members) }
{
    let mut staged = BTreeMap::new(alloc);
    for version in versions {
        let id = version.id.as_text().as_str();
        drop(staged.insert(id, &version.labels)?);
    }
    Ok(staged)
}

/// Writes each id with the labels.
fn write_members(
    alloc: Global,
    out: &mut Out,
    staged: &BTreeMap<&str, &List<Label>>,
) -> Result<(), NoMemory>
    ensures { OnOk result (out.new ≡ behind (staged_members staged.now.entries) out.old) }
{
    for (id, labels) in staged.iter() {
        out.name(id)?;
        labels.render(alloc, out)?;
    }
    Ok(())
}
