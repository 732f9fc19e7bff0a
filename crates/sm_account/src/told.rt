//! A history that only clauses see.
ghost use Rattle.std.specs.Prelude.{◌≡◌, ◌++◌, ◌∷◌, [], List, ℕ};
ghost use Rattle.std.specs.Borrow.{ftrue};
ghost use Rattle.sm_model.specs.declared.entry.Mark.{Mark};
ghost use Rattle.sm_model.specs.declared.entry.Mark.TheVariants as mark;
ghost use Rattle.sm_claims.specs.LiveClaims.{claim_mark};

use sm_claims::Claim;
use sm_model::Entry;
use std::marker::Model;

/// The history of an account: each mark beside the seat that made it. It has no bytes, since only clauses see it: what
/// the account reads of its history stands beside it.
#[derive(Drop)]
pub struct Told {
    pub ghost value: { List (ℕ × Mark) },
}

impl Model for Told {
    ghost also_owns = { λ _. ftrue };
}

// It owns nothing.
unsafe impl Send for Told {}

impl Told {
    /// No marks.
    pub fn nothing() -> Told
        ensures { result.value ≡ [] }
    {
        Told {}
    }

    /// One entry more.
    pub fn entered(_before: &Told, _seat: &u32, _entry: &Entry) -> Told
        ensures { result.value ≡ _before.now.value ++ (_seat.now, mark.Entry _entry.now) ∷ [] }
    {
        Told {}
    }

    /// One claim more.
    pub fn claimed(_before: &Told, _seat: &u32, _claim: &Claim) -> Told
        ensures { result.value ≡ _before.now.value ++ (_seat.now, claim_mark _claim.now) ∷ [] }
    {
        Told {}
    }

    /// One fault more.
    pub fn failed(_before: &Told, _seat: &u32) -> Told
        ensures { result.value ≡ _before.now.value ++ (_seat.now, mark.Fault) ∷ [] }
    {
        Told {}
    }
}
