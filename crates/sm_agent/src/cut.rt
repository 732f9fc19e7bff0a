//! Texts that are cut at a mark.
ghost use Rattle.std.specs.Prelude.{◌≡◌, ◌<◌, ◌==◌, ◌∷◌, false, length, IfNone, IfSome, option_copied};
ghost use Rattle.std.specs.List.{list_any};
ghost use Rattle.sm_agent.specs.Cuts.{AreAround, pieces, pieces_left};

/// What stands before the first such mark of a text, and what behind it, where there is one.
pub(crate) fn cut(text: &str, mark: char) -> Option<(&str, &str)>
    requires { mark < 128 }
    ensures around { IfSome result (λ found. AreAround mark text.now found.0.now found.1.now) }
    ensures uncut { IfNone result (list_any (λ b. b == mark) text.now ≡ false) }
{
    text.split_once(mark)
}

/// The first piece of a text between such marks, and what is left behind its mark.
#[tactic(auto, using(crate::proofs::CutLemmas::one_piece))]
pub(crate) fn first_piece(text: &str, mark: char) -> (&str, Option<&str>)
    requires { mark < 128 }
    ensures pieces { pieces mark text.now ≡ result.0.now ∷ pieces_left mark (option_copied result.1) }
    ensures shorter { IfSome result.1 (λ rest. length rest.now < length text.now) }
{
    match cut(text, mark) {
        Some((piece, rest)) => (piece, Some(rest)),
        None => (text, None),
    }
}
