//! Laws of whole runs of a replica, and of the action that a request asks for.
ghost use Rattle.sm_follow.specs.Actions.{ActionsAreNamed};
ghost use Rattle.sm_follow.specs.Laws.{CatchesUp, IsAPrefix, KeepsOrPromotes, RunsCatchUp, RunsLeavePrefix};

use sm_disk::Disk;

/// A replica is a prefix of its primary. Frames of a primary's history, lost, repeated and in any order, with messages
/// between them, leave it with what so many first entries make, and how many never falls. Only a promotion changes what
/// its disk holds, to the replica's base alone.
pub fn a_replica_is_a_prefix()
    ensures prefix { IsAPrefix }
    ensures held { KeepsOrPromotes }
{}

/// A run that ends where the replica goes on leaves a prefix of the primary's history; and on the disk what the opening
/// took, or behind a promotion that prefix as a base, which an account may be opened over.
pub fn a_run_leaves_a_prefix<D: Disk>()
    ensures { RunsLeavePrefix D.Disk }
{}

/// A replica catches up. All frames of an account of the history, in order and with messages between them, bring a
/// replica from its position, which is not past the account's end, to that end, where it is not promoted.
pub fn a_replica_catches_up()
    ensures { CatchesUp }
{}

/// A run catches up. Where frames of the history were read, and then all frames of an account from the position that
/// was written last and is not past its end, with messages between them, a replica that goes on and was not promoted
/// holds what the account holds.
pub fn a_run_catches_up<D: Disk>()
    ensures { RunsCatchUp D.Disk }
{}

/// The action that a request asks the policy of its secret for is `secretsmanager:` and the name of its operation.
pub fn actions_are_named()
    ensures { ActionsAreNamed }
{}
