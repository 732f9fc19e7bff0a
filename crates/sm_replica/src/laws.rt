//! Laws of replicas.
ghost use Rattle.sm_replica.specs.Laws.{FollowsHistory, ShipsOfHistory, CatchesUp};

/// A replica is a prefix. Frames of a primary's history, lost, repeated and in any order, leave it with what so many
/// first entries make; how many never falls, and each answer tells it. The frames of an account tell of its history;
/// and all of them in order, from the replica's position, bring it to the account's end.
pub fn replica_is_a_prefix()
    ensures follows { FollowsHistory }
    ensures ships { ShipsOfHistory }
    ensures catches_up { CatchesUp }
{}
