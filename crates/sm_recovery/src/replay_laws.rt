//! Laws of entries that are made again.
ghost use Rattle.sm_recovery.specs.ReplayLaws.{KeepsSound, MakesAsReplayed};

/// Entries that may follow a sound base leave a sound one, and what they make of it is what replaying them makes.
pub fn what_follows_a_base()
    ensures sound { KeepsSound }
    ensures replayed { MakesAsReplayed }
{}
