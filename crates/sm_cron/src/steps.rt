//! Numbers in steps, and sets of them.
ghost use Rattle.std.specs.Prelude.{◌≡◌, ◌+◌, ◌<◌, ◌≤◌};

/// The numbers from a first one to a last one in steps.
#[derive(Clone, Copy)]
pub(crate) struct Steps {
    pub(crate) first: u32,
    pub(crate) last: u32,
    pub(crate) by: u32,
}

impl Steps {
    ghost use Rattle.sm_cron.specs.Sets.{is_step, set_of};

    /// Whether the number is one of them.
    fn has(self, number: u32) -> bool
        requires { 0 < self.by }
        ensures { result ≡ is_step self number }
    {
        self.first <= number && number <= self.last && (number - self.first) % self.by == 0
    }

    #[tactic(auto, using(crate::proofs::SetLemmas::set_none, crate::proofs::SetLemmas::set_more, crate::proofs::SetLemmas::set_same))]
    /// The set of those that are at most a greatest.
    pub(crate) fn set(self, greatest: u32) -> u32
        requires steps { 0 < self.by }
        requires width { greatest < 32 }
        ensures value { result ≡ set_of (is_step self) (greatest + 1) }
    {
        let mut set = 0;
        for number in 0..greatest + 1 {
            if self.has(number) {
                set |= 1 << number;
            }
        }
        set
    }
}
