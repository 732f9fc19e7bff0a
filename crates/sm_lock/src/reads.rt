//! What an owner may ask of a pass.
ghost use Rattle.std.specs.Prelude.{◌≡◌, length};
ghost use Rattle.sm_lock.specs.Handles.{number, seen};

use crate::pass::Pass;
use crate::storied::Storied;

impl<T: Storied> Pass<T> {
    /// The number of its seat. It takes no memory.
    pub fn seat(&self) -> u32
        ensures { result ≡ number self.now }
    {
        self.number
    }

    /// The length of the list that its owner has seen. It takes no memory.
    pub fn length(&self) -> u64
        ensures { result ≡ length (seen self.now) }
    {
        self.count
    }
}
