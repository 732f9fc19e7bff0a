//! A clock in memory that reads given moments.
ghost use Rattle.std.specs.Prelude.{◌≡◌, ◌≤◌, ◌+◌, ◌-◌, [], ◌∷◌, length, Some};
ghost use Rattle.std.specs.Io.KnownBytes.{append_known};
ghost use Rattle.sm_base.specs.declared.moment.TheConstants.{LAST_READING};
ghost use Rattle.sm_io.specs.ListClock.{AreReadings, reading_at, list_readings};

use crate::clock::Clock;
use crate::count::Count;
use sm_base::{List, Moment};
use std::marker::Model;

/// A clock that reads given moments in order, then the last of them again and again, and 0 where there is
/// none.
#[derive(Drop)]
pub struct ListClock {
    moments: List<Moment>,
    at: usize,
    count: Count,
}

impl Model for ListClock {
    ghost use Rattle.std.specs.Prelude.{◌≡◌, ◌-◌, length, min};
    ghost use Rattle.sm_io.specs.ListClock.{ListClockState, AreReadings};

    ghost Value = { ListClockState };

    ghost view = { λ c. record { moments = c.moments; count = c.count.value } };

    ghost invariant = { λ c. (c.at ≡ min c.count.value (length c.moments - 1)) × AreReadings c.moments };
}

impl ListClock {
    /// A clock that reads these moments. It takes no memory.
    pub fn new(moments: List<Moment>) -> ListClock
        requires { AreReadings moments }
        ensures state { result ≡ record { moments = moments; count = 0 } }
        ensures readings { ⟦<ListClock as Clock>⟧.readings result ≡ Some [] }
    {
        ListClock {
            moments,
            at: 0,
            count: Count::zero(),
        }
    }
}

impl Clock for ListClock {
    ghost readings = { λ c. Some (list_readings c) };

    fn now(&mut self) -> Moment
        ensures bound { result.0 ≤ LAST_READING }
        ensures told { Some (list_readings self.new)
            ≡ append_known (Some (list_readings self.old)) (result.0 ∷ []) }

        // Exactly what it reads.
        ensures exact { result.0 ≡ reading_at self.old.moments self.old.count }
        ensures after { self.new ≡ record self.old { count = self.old.count + 1 } }
    {
        self.count = Count::plus(&self.count, &1);
        let moment = moment_at(self.moments.as_slice(), self.at);
        if self.at + 1 < self.moments.len() {
            self.at += 1;
        }
        moment
    }

    fn pause(&mut self)
        ensures same { self.new ≡ self.old }
    {}
}

/// The moment at a place of a list, and 0 where the list is empty.
fn moment_at(moments: &[Moment], at: usize) -> Moment
    requires readings { AreReadings moments.now }
    requires inside { at ≤ length moments.now - 1 }
    ensures bound { result.0 ≤ LAST_READING }
    ensures exact { result.0 ≡ reading_at moments.now at }
{
    if moments.is_empty() {
        Moment(0)
    } else {
        moments[at]
    }
}
