//! Where the time comes from.
ghost use Rattle.std.specs.Prelude.{◌≡◌, ◌≤◌, ℕ, List, Option, [], ◌∷◌};
ghost use Rattle.std.specs.Io.KnownBytes.{append_known};
ghost use Rattle.sm_base.specs.declared.moment.TheConstants.{LAST_READING};

use sm_base::Moment;

/// A clock. It never fails.
pub trait Clock {
    /// The readings so far, in whole seconds since the beginning of 1970, where the clock tells them.
    ghost readings: { Self → Option (List ℕ) };

    /// Reads the clock.
    fn now(&mut self) -> Moment
        ensures bound { result.0 ≤ LAST_READING }
        ensures told { readings self.new ≡ append_known (readings self.old) (result.0 ∷ []) };

    /// May sleep for a while. It reads nothing, and promises nothing else.
    fn pause(&mut self)
        ensures told { readings self.new ≡ readings self.old };
}
