//! Laws of an account's history.
ghost use Rattle.sm_account.specs.Prefixes.{PrefixesStand};

/// The law that what an account's type keeps of all entries holds at each place of the history: the entries up to
/// there are legal, and the rows that they make are sound.
pub fn stand_at_each_place()
    ensures { PrefixesStand }
{}
