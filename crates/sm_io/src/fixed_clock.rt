//! A clock in memory that stands.
ghost use Rattle.std.specs.Prelude.{◌≡◌, ◌≤◌, ◌+◌, [], ◌∷◌, Some};
ghost use Rattle.std.specs.Io.KnownBytes.{append_known};
ghost use Rattle.sm_base.specs.declared.moment.TheConstants.{LAST_READING};
ghost use Rattle.sm_io.specs.FixedClock.{fixed_readings};

use crate::clock::Clock;
use crate::count::Count;
use sm_base::Moment;
use std::marker::Model;

/// A clock that always reads the same moment.
#[derive(Drop)]
pub struct FixedClock {
    moment: Moment,
    count: Count,
}

impl Model for FixedClock {
    ghost use Rattle.std.specs.Prelude.{◌≤◌};
    ghost use Rattle.sm_base.specs.declared.moment.TheConstants.{LAST_READING};
    ghost use Rattle.sm_io.specs.FixedClock.{FixedState};

    ghost Value = { FixedState };

    ghost view = { λ c. record { moment = c.moment; count = c.count.value } };

    ghost invariant = { λ c. c.moment.0 ≤ LAST_READING };
}

impl FixedClock {
    /// A clock that reads this moment. It takes no memory.
    pub fn new(moment: Moment) -> FixedClock
        requires { moment.0 ≤ LAST_READING }
        ensures state { result ≡ record { moment = moment; count = 0 } }
        ensures readings { ⟦<FixedClock as Clock>⟧.readings result ≡ Some [] }
    {
        FixedClock {
            moment,
            count: Count::zero(),
        }
    }
}

impl Clock for FixedClock {
    ghost readings = { λ c. Some (fixed_readings c) };

    fn now(&mut self) -> Moment
        ensures bound { result.0 ≤ LAST_READING }
        ensures told { Some (fixed_readings self.new)
            ≡ append_known (Some (fixed_readings self.old)) (result.0 ∷ []) }

        // Exactly what it reads.
        ensures exact { result ≡ self.old.moment }
        ensures after { self.new ≡ record self.old { count = self.old.count + 1 } }
    {
        self.count = Count::plus(&self.count, &1);
        self.moment
    }

    fn pause(&mut self)
        ensures same { self.new ≡ self.old }
    {}
}
