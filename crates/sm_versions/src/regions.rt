//! The names of regions (AWS Secrets Manager API Reference, ReplicaRegionType: Region).
ghost use Rattle.std.specs.Prelude.{◌≡◌};
ghost use Rattle.std.specs.List.{list_all};
ghost use Rattle.sm_base.specs.Spelling.{is_region_byte};
ghost use Rattle.sm_versions.specs.Regions.{is_region, are_regions};

use sm_base::limits::{REGION_LIMIT, REGIONS_LIMIT};
use sm_model::Text;

/// Whether the byte is a lower-case letter, a digit or `-`.
#[tactic(auto, unfolding(sm_base::specs::Spelling::is_region_byte))]
fn is_region_byte(byte: u8) -> bool
    ensures { result ≡ is_region_byte byte }
{
    byte.is_ascii_lowercase() || byte.is_ascii_digit() || byte == b'-'
}

/// Whether each byte is one that the name of a region may have.
fn are_region_bytes(text: &[u8]) -> bool
    ensures { result ≡ list_all is_region_byte text.now }
{
    text.iter().all(|byte| is_region_byte(*byte))
}

/// Whether a text of bytes names a region.
fn is_region_text(text: &[u8]) -> bool
    ensures { result ≡ is_region text.now }
{
    1 <= text.len() && text.len() <= REGION_LIMIT && are_region_bytes(text)
}

/// Whether the text names a region: 1 to 32 lower-case letters, digits or `-`.
pub fn is_region(text: &Text) -> bool
    ensures { result ≡ is_region text.now }
{
    is_region_text(text.as_bytes())
}

/// Whether each of the texts names a region.
fn each_is_region(regions: &[Text]) -> bool
    ensures { result ≡ list_all is_region regions.now }
{
    regions.iter().all(|region| is_region(region))
}

/// Whether the texts may be the regions of a secret, or of a request: at most 20, each of which names a region.
pub fn are_regions(regions: &[Text]) -> bool
    ensures { result ≡ are_regions regions.now }
{
    regions.len() <= REGIONS_LIMIT as usize && each_is_region(regions)
}
