//! A number that only clauses see.
ghost use Rattle.std.specs.Prelude.{◌≡◌, ◌+◌, ℕ};
ghost use Rattle.std.specs.Borrow.{ftrue};

use std::marker::Model;

/// How often something happened, or how much of it. It has no bytes: only clauses see it, and so it has no
/// last value.
#[derive(Drop)]
pub struct Count {
    pub ghost value: { ℕ },
}

impl Model for Count {
    ghost also_owns = { λ _. ftrue };
}

// It owns nothing.
unsafe impl Send for Count {}

impl Count {
    pub(crate) fn zero() -> Count
        ensures { result.value ≡ 0 }
    {
        Count {}
    }

    pub(crate) fn plus(_before: &Count, _more: &usize) -> Count
        ensures { result.value ≡ _before.now.value + _more.now }
    {
        Count {}
    }
}
