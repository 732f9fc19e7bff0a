//! The digits of a digest, and whether two texts of digits are the same.
ghost use Rattle.std.specs.Prelude.{◌≡◌};
ghost use Rattle.hex.specs.Hex.{encode_lower};
ghost use Rattle.sm_base.specs.Texts.{same_text};

/// The lower-case hexadecimal digits of a digest.
pub fn digits_of(digest: &[u8; 32]) -> [u8; 64]
    ensures { result ≡ encode_lower digest.now }
{
    let mut digits = [0; 64];
    match hex::encode_to_slice(digest, &mut digits) {
        Ok(()) => digits,
        Err(_) => unreachable!(),
    }
}

/// Whether both texts are the same. All bytes are looked at, wherever the first difference is.
#[tactic(auto, using(crate::proofs::DigitLemmas::one_compared, crate::proofs::DigitLemmas::all_compared, crate::proofs::DigitLemmas::other_length))]
pub fn are_same(one: &[u8], other: &[u8]) -> bool
    ensures { result ≡ same_text one.now other.now }
{
    if one.len() != other.len() {
        return false;
    }
    let mut difference = 0;
    for place in 0..one.len() {
        difference |= one[place] ^ other[place];
    }
    difference == 0
}
