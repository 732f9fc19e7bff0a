//! Laws of what keeps the state of a disk, and of first faults.
ghost use Rattle.sm_recovery.specs.Keeping.{HeldKeepsState, ReplacedKeepsState, RunsKeepState, ReplacingKeepsState, KeepsJoin};
ghost use Rattle.sm_recovery.specs.Lawful.{MadeOnly, MakesOneMore, StaysLawful};
ghost use Rattle.sm_recovery.specs.Unlawful.{OneFirstFault, LawfulHasNone};

use sm_disk::Disk;

/// What keeps a base and its entries keeps the state that they make, and so does what puts that state as a base in
/// their place.
pub fn keep_states()
    ensures held { HeldKeepsState }
    ensures replaced { ReplacedKeepsState }
{}

/// Calls keep the state of a disk at each moment that keep the base and the entries, and so do calls that put the state
/// as a base in their place, and calls one after the other of which each does.
pub fn runs_keep_states<D: Disk>()
    ensures runs { RunsKeepState D.Disk }
    ensures replacing { ReplacingKeepsState D.Disk }
    ensures joined { KeepsJoin D.Disk }
{}

/// A base makes itself where no entry stands behind it, an entry more makes what it makes of that, and a lawful base
/// with the entries behind it makes a sound one, which is lawful by itself.
pub fn find_lawful()
    ensures only { MadeOnly }
    ensures more { MakesOneMore }
    ensures stays { StaysLawful }
{}

/// The bodies of a file have one first fault at most, and those of a file that has what is lawful have none.
pub fn find_first_faults()
    ensures one { OneFirstFault }
    ensures none { LawfulHasNone }
{}
