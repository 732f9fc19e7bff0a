//! Bytes that only clauses see.
ghost use Rattle.std.specs.Prelude.{◌≡◌, ◌++◌, ℕ, List, []};
ghost use Rattle.std.specs.Borrow.{ftrue};

use std::marker::{Model, PhantomData};

/// All bytes that were to be written. It has no bytes itself: only clauses see them.
#[derive(Drop)]
pub struct Said {
    marker: PhantomData<u8>,
    pub ghost value: { List ℕ },
}

impl Model for Said {
    ghost also_owns = { λ _. ftrue };
}

impl Said {
    pub(crate) fn nothing() -> Said
        ensures { result.value ≡ [] }
    {
        Said {
            marker: PhantomData,
        }
    }

    /// More was to be written.
    pub(crate) fn note(&mut self, _bytes: &[u8])
        ensures { self.new.value ≡ self.old.value ++ _bytes.now }
    {}
}
