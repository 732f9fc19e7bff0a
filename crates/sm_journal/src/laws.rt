//! Laws of the grammar.
ghost use Rattle.std.specs.Prelude.{◌≡◌, ◌<◌, ℕ, List, Option, length};
ghost use Rattle.sm_journal.specs.Records.{Recovers, RecoversEither, IsDamaged};
ghost use Rattle.sm_journal.specs.declared.format.Format.{Format};
ghost use Rattle.sm_journal.specs.Tails.{Ends};
ghost use Rattle.sm_journal.specs.declared.tail.Tail.{Tail};

/// A file has one list of records at most, and one format where it has more than nine bytes; and a file that has a list
/// isn't damaged.
pub fn a_file_has_one_list()
    ensures list { (bytes : List ℕ) (f : Format) (g : Format) (a : List (List ℕ)) (b : List (List ℕ)) →
        Recovers bytes f a → Recovers bytes g b → a ≡ b }
    ensures format { (bytes : List ℕ) (f : Format) (g : Format) (a : List (List ℕ)) (b : List (List ℕ)) →
        9 < length bytes → Recovers bytes f a → Recovers bytes g b → f ≡ g }
    ensures sound { (bytes : List ℕ) (format : Format) (bodies : List (List ℕ)) (at : ℕ) (entry : ℕ) →
        Recovers bytes format bodies → IsDamaged bytes at entry → ⊥ }
{}

/// What is said of a file has one proof at most, so a type can keep it as a fact.
pub fn each_has_one_proof()
    ensures recovers { (bytes : List ℕ) (format : Format) (bodies : List (List ℕ)) →
        IsProp (Recovers bytes format bodies) }
    ensures either { (format : Format) (bodies : List (List ℕ)) (failed : Option (List ℕ)) (bytes : List ℕ) →
        IsProp (RecoversEither format bodies failed bytes) }
    ensures ends { (format : Format) (tail : Tail) (bodies : List (List ℕ)) (failed : Option (List ℕ))
        (bytes : List ℕ) → IsProp (Ends format tail bodies failed bytes) }
{}
