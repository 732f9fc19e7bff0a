//! A history that only clauses see.
ghost use Rattle.std.specs.Prelude.{◌≡◌, List, [], ◌∷◌};
ghost use Rattle.std.specs.Borrow.{ftrue};

use std::marker::{Model, PhantomData};

/// Pairs of values as they were, the latest first. It has no bytes: only clauses see them.
#[derive(Drop)]
pub struct Past<A, B> {
    of: PhantomData<(A, B)>,
    pub ghost items: { List (A × B) },
}

impl<A, B> Model for Past<A, B> {
    ghost also_owns = { λ _. ftrue };
}

// It owns nothing.
unsafe impl<A: Send, B: Send> Send for Past<A, B> {}

impl<A, B> Past<A, B> {
    /// Nothing was before.
    pub(crate) fn nothing() -> Past<A, B>
        ensures { result.items ≡ [] }
    {
        Past { of: PhantomData }
    }

    /// The same, and before it these values.
    pub(crate) fn noting(&self, first: &A, second: &B) -> Past<A, B>
        ensures { result.items ≡ (first.now, second.now) ∷ self.now.items }
    {
        Past { of: PhantomData }
    }
}
