//! The value, lent to who has it.
ghost use Rattle.std.specs.Prelude.{◌≡◌};
ghost use Rattle.std.specs.Borrow.{Lends, sem};
ghost use Rattle.sm_lock.specs.contracts.pass.Held.{the_row};

use crate::pass::Held;
use crate::storied::Storied;

impl<T: Storied> Held<T> {
    /// The value. Whatever is written through it stays in it. It takes no memory.
    pub fn value(&mut self) -> &mut T
        ensures* writes_back { sem 𝓛 (Lends (the_row T.row T.Origin.row T.Entry.row T.Storied) T.row self.entry result
            (λ w. record self.old { value = record self.old.value { value = w } })) }
        ensures value { result.now ≡ self.old.value.value }
    {
        &mut *self.value
    }
}
