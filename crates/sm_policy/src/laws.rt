//! Laws of patterns and decisions.
ghost use Rattle.sm_policy.specs.Laws.{MatchesAsWild, StarMatchesAll, DenyWins, AllowIsUndenied, DecisionAdmits};

/// The test on patterns is the relation, and `*` matches every text, the empty one too.
pub fn patterns_match_as_stated()
    ensures relation { MatchesAsWild }
    ensures star { StarMatchesAll }
{}

/// A statement that denies and matches wins over each that allows; and a person may do exactly what no statement
/// denies, where the person is full or some statement allows it.
pub fn a_denial_wins()
    ensures deny { DenyWins }
    ensures allow { AllowIsUndenied }
    ensures admitted { DecisionAdmits }
{}
