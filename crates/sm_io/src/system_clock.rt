//! The system's clock.
ghost use Rattle.std.specs.Prelude.{◌≡◌, ◌≤◌, None, MatchResult};
ghost use Rattle.std.specs.Duration.{as_nanos};
ghost use Rattle.sm_io.specs.Clamped.{clamped};
ghost use Rattle.sm_base.specs.declared.moment.TheConstants.{LAST_READING};

use crate::clock::Clock;
use sm_base::Moment;
use sm_base::moment::LAST_READING;
use std::time::Duration;
use std::{io, thread, time};

/// How many milliseconds a pause sleeps.
const PAUSE: u64 = 50;

/// The system's clock. It tells no readings, and clamps each to the greatest that a clock has. Where the
/// system can't tell the time it reads what it read before, and 0 at first.
#[derive(Drop)]
pub struct SystemClock<C> {
    clock: C,
    last: u64,
    ghost bound: { last ≤ LAST_READING },
}

impl<C> SystemClock<C> {
    ghost use Rattle.sm_io.specs.Adapters.{last_reading};

    /// The clock of a system, which hasn't been read.
    pub fn new(clock: C) -> SystemClock<C>
        ensures { last_reading result ≡ 0 }
    {
        SystemClock { clock, last: 0 }
    }
}

impl<C: time::Clock> Clock for SystemClock<C> {
    ghost use Rattle.sm_io.specs.Adapters.{last_reading};

    ghost readings = { λ _. None };

    fn now(&mut self) -> Moment
        ensures bound { result.0 ≤ LAST_READING }
        ensures kept { result.0 ≡ last_reading self.new }
    {
        self.last = reading_of(self.clock.since_1970(), self.last);
        Moment(self.last)
    }

    fn pause(&mut self) {
        thread::sleep(&self.clock, Duration::from_millis(PAUSE));
    }
}

/// What a clock reads: the whole seconds that the system told, clamped, and the last reading where it told none.
fn reading_of(told: io::Result<Duration>, last: u64) -> u64
    ensures { MatchResult told (λ since. result ≡ clamped (as_nanos since)) (λ _. result ≡ last) }
{
    match told {
        Ok(since) => since.as_secs().min(LAST_READING),
        Err(_) => last,
    }
}
