//! The members of the operations on replica regions (AWS Secrets Manager API Reference).
ghost use Rattle.std.specs.Prelude.{◌≡◌};
ghost use Rattle.serde_json.specs.View.{view, items_view};
ghost use Rattle.sm_json.specs.Fields.{fault_of, first_fault, given, may, must, wanted};
ghost use Rattle.sm_json.specs.Kinds.{all_items, list_of, region, region_members, text};
ghost use Rattle.sm_json.specs.Reads.{IsRead, Needs, Reads};
ghost use Rattle.sm_json.specs.Tables.{remove_regions_members, remove_regions_in, replicate_secret_members, replicate_secret_in};
ghost use Rattle.sm_json.specs.declared.name.MemberName.TheVariants as names;

use crate::fields::{Fault, Mark, Member, Read, optional, required};
use crate::kinds::object_read;
use crate::name::MemberName;
use serde_json::Value;
use sm_model::{List, RegionsOfSecret, Text};
use std::alloc::Global;
use std::marker::Model;

/// Regions to replicate to (AWS Secrets Manager API Reference, ReplicaRegionType). Contracts see them as their names.
#[derive(Drop)]
struct Regions {
    names: List<Text>,
}

impl Model for Regions {
    ghost use Rattle.std.specs.Prelude.{ℕ, List};

    ghost Value = { List (List ℕ) };

    ghost view = { λ r. r.names };
}

impl Regions {
    fn into_names(self) -> List<Text>
        ensures { result ≡ self }
    {
        let Regions { names } = self;
        names
    }
}

impl Member for Regions {
    ghost use Rattle.sm_json.specs.Kinds.{list_of, region};

    ghost reads = { list_of region };

    #[tactic(auto, unfolding(crate::specs::Kinds::list_of))]
    fn read(alloc: Global, value: &Value) -> Read<Regions> {
        match value.as_array() {
            Some(items) => all_regions(alloc, items.as_slice()),
            None => Read::Not(Mark::Bad),
        }
    }
}

/// The members of a region.
#[tactic(auto, unfolding(crate::specs::Kinds::region_members))]
fn region_in(alloc: Global, object: &Value) -> Result<Text, Fault>
    ensures { Reads result (first_fault region_members (view object.now)) (wanted text names.Region (view object.now)) }
{
    let name = required(alloc, object, MemberName::Region)?;
    Ok(name)
}

/// The name of a region. Its key is passed over.
#[tactic(auto, unfolding(crate::specs::Kinds::region))]
fn region(alloc: Global, value: &Value) -> Read<Text>
    ensures { IsRead result (region (view value.now)) }
{
    match value.as_object() {
        Some(_) => object_read(region_in(alloc, value)),
        None => Read::Not(Mark::Bad),
    }
}

/// The names of the regions of a list, if each item is one.
#[tactic(auto, using(crate::proofs::ItemLemmas::items_more, crate::proofs::ItemLemmas::items_bad, crate::proofs::ItemLemmas::items_all))]
fn all_regions(alloc: Global, items: &[Value]) -> Read<Regions>
    ensures { IsRead result (all_items region (items_view items.now)) }
{
    let mut names = List::empty(alloc);
    for item in items {
        match region(alloc, item) {
            Read::Is(name) => match names.push(name) {
                Ok(_) => {}
                Err(_) => return Read::Memory,
            },
            Read::Not(mark) => return Read::Not(mark),
            Read::Memory => return Read::Memory,
        }
    }
    Read::Is(Regions { names })
}

/// The regions of a member that need not be there.
pub fn regions_given(alloc: Global, object: &Value, name: MemberName) -> Result<List<Text>, Fault>
    ensures { Reads result (fault_of (may name (list_of region)) (view object.now))
        (wanted (list_of region) name (view object.now)) }
{
    match optional::<Regions>(alloc, object, name)? {
        Some(regions) => Ok(regions.into_names()),
        None => Ok(List::empty(alloc)),
    }
}

/// The regions of a member that must be there.
fn regions_wanted(alloc: Global, object: &Value, name: MemberName) -> Result<List<Text>, Fault>
    ensures { Needs result (fault_of (must name (list_of region)) (view object.now))
        (given (list_of region) name (view object.now)) }
{
    let regions = required::<Regions>(alloc, object, name)?;
    Ok(regions.into_names())
}

/// The members of RemoveRegionsFromReplication.
#[tactic(auto, unfolding(crate::specs::Tables::remove_regions_members, crate::specs::Tables::remove_regions_in))]
pub fn remove_regions_in(alloc: Global, object: &Value) -> Result<RegionsOfSecret, Fault>
    ensures { Reads result (first_fault remove_regions_members (view object.now))
        (remove_regions_in (view object.now)) }
{
    Ok(RegionsOfSecret {
        regions: required(alloc, object, MemberName::RemoveReplicaRegions)?,
        secret_id: required(alloc, object, MemberName::SecretId)?,
    })
}

/// The members of ReplicateSecretToRegions.
#[tactic(auto, unfolding(crate::specs::Tables::replicate_secret_members, crate::specs::Tables::replicate_secret_in))]
pub fn replicate_secret_in(alloc: Global, object: &Value) -> Result<RegionsOfSecret, Fault>
    ensures { Reads result (first_fault replicate_secret_members (view object.now))
        (replicate_secret_in (view object.now)) }
{
    Ok(RegionsOfSecret {
        regions: regions_wanted(alloc, object, MemberName::AddReplicaRegions)?,
        secret_id: required(alloc, object, MemberName::SecretId)?,
    })
}
