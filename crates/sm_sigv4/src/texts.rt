//! Texts and their pieces.
ghost use Rattle.std.specs.Prelude.{◌≡◌, ◌<◌, ◌∷◌, [], length, IfSome, IfNone, option_map};
ghost use Rattle.sm_sigv4.specs.Texts.{behind, pieces, past_spaces};

/// What stands behind these bytes, where the text begins with them.
#[tactic(auto, unfolding(crate::specs::Texts::behind))]
pub fn behind<'a>(front: &[u8], text: &'a [u8]) -> Option<&'a [u8]>
    ensures { option_map (λ t. t.now) result ≡ behind front.now text.now }
{
    text.strip_prefix(front)
}

/// The first piece of a text, up to such a byte, and what is behind that byte.
#[tactic(auto, using(crate::proofs::TextLemmas::nothing_in_front, crate::proofs::TextLemmas::piece_alone, crate::proofs::TextLemmas::not_here))]
pub fn first_piece(byte: u8, text: &[u8]) -> Option<(&[u8], &[u8])>
    ensures alone { IfNone result (pieces byte text.now ≡ text.now ∷ []) }
    ensures first { IfSome result (λ found. pieces byte text.now ≡ found.0.now ∷ pieces byte found.1.now) }
    ensures shorter { IfSome result (λ found. length found.1.now < length text.now) }
{
    for (place, found) in text.iter().enumerate() {
        if *found == byte {
            return Some((text.split_at(place).0, text.split_at(place + 1).1));
        }
    }
    None
}

/// The text without the spaces that it begins with.
#[tactic(auto, using(crate::proofs::TextLemmas::space_passed, crate::proofs::TextLemmas::no_space, crate::proofs::TextLemmas::all_spaces))]
pub fn past_spaces(text: &[u8]) -> &[u8]
    ensures { result.now ≡ past_spaces text.now }
{
    for (place, found) in text.iter().enumerate() {
        if *found != b' ' {
            return text.split_at(place).1;
        }
    }
    text.split_at(text.len()).1
}
