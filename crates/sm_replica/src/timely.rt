//! The law that the entries of a frame that has a spelling have moments that a clock reads.
ghost use Rattle.sm_replication.specs.Spelled.{HasParts};
ghost use Rattle.sm_replica.specs.Replicas.{IsTimely};

use sm_replication::Frame;

/// The law that a clock can give the moment of each entry of a frame that has a spelling. It takes no memory, and
/// changes nothing.
#[tactic(auto, using(crate::proofs::TimelyLemmas::parts_timely))]
pub fn note_timely(frame: &Frame)
    requires { HasParts frame.now }
    ensures { IsTimely frame.now }
{
    let _frame = frame;
}
