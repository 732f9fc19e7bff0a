//! Laws of frames as bytes.
ghost use Rattle.sm_replication.specs.Laws.{ReachesItsBytes, StaysReached, SpellsOneFrame, StaysBad};

/// A frame reaches all of its bytes by their lengths, whatever stands behind them; how far bytes reach stays with more
/// bytes behind them, and so does it that they begin no frame; and no two frames have the same bytes.
pub fn frames_of_bytes()
    ensures reaches { ReachesItsBytes }
    ensures stays { StaysReached }
    ensures one { SpellsOneFrame }
    ensures bad { StaysBad }
{}
