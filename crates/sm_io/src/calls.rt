//! The calls of a form in memory that can be told to fail.
ghost use Rattle.std.specs.Prelude.{◌≡◌, ◌≤◌};

use sm_base::Fails;

/// Which calls are told to fail, how many calls there were, and how many of them were faults. Both counts
/// stand at 2^64 - 1: the number of a call past that is in no list, and every `from` has come by then.
#[derive(Drop)]
pub struct Calls {
    pub fails: Fails,
    pub made: u64,
    pub faults: u64,
}

impl Calls {
    ghost use Rattle.sm_io.specs.Calls.{no_calls, fails_next, after_call, after_fault};

    /// No calls so far.
    pub fn new(fails: Fails) -> Calls
        ensures { result ≡ no_calls fails }
    {
        Calls {
            fails,
            made: 0,
            faults: 0,
        }
    }

    /// Whether the next call is told to fail.
    pub fn next_fails(&self) -> bool
        ensures { result ≡ fails_next self.now }
    {
        match self.made.checked_add(1) {
            Some(call) => self.fails.is_told(call),
            None => self.fails.from.is_some(),
        }
    }

    /// Counts a call that is no fault.
    pub fn count_call(&mut self)
        ensures { self.new ≡ after_call self.old }
    {
        self.made = self.made.saturating_add(1);
    }

    /// Counts a call that is a fault.
    pub fn count_fault(&mut self)
        ensures after { self.new ≡ after_fault self.old }
        ensures later { self.old.faults ≤ self.new.faults }
    {
        self.made = self.made.saturating_add(1);
        self.faults = self.faults.saturating_add(1);
    }
}
