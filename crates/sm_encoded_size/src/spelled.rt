//! The law that a sound base has a spelling.
ghost use Rattle.sm_journal.specs.Records.{AreWithin, size};
ghost use Rattle.sm_record.specs.Snapshots.{snapshot, HasSnapshot};
ghost use Rattle.sm_record.specs.declared.edition.Edition.TheVariants.{Second};
ghost use Rattle.sm_base_check.specs.Bases.{IsSound};
ghost use Rattle.std.specs.Prelude.{◌^◌, ◌<◌};

use crate::typed::note_base;
use sm_record::Base;

/// The law that a sound base has a spelling in the second format, of which no body is too long for a record of the
/// journal, and that all of them together are far from too long for a file. It takes no memory, and changes nothing.
#[tactic(auto, using(crate::proofs::SnapshotSizes::sound_spelled, crate::proofs::SnapshotSizes::sound_within, crate::proofs::SnapshotSizes::sound_short))]
pub fn note_spelled(base: &Base)
    requires { IsSound base.now }
    ensures spelled { HasSnapshot Second base.now }
    ensures within { AreWithin (snapshot Second base.now) }
    ensures short { size (snapshot Second base.now) < 2 ^ 62 }
{
    note_base(base);
}
