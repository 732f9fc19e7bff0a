//! The words that messages are made of.
ghost use Rattle.std.specs.Prelude.{◌≡◌};
ghost use Rattle.sm_drill.specs.Words.{seed_of};

/// The seed of a number: its bytes, the lowest first, and zeros.
pub(crate) fn seed_of(number: u64) -> [u8; 32]
    ensures { result ≡ seed_of number }
{
    let mut seed = [0; 32];
    seed[..8].copy_from_slice(&number.to_le_bytes());
    seed
}
