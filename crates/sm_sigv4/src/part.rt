//! The parts of a signature, and what is said of them.

use sm_base::NoMemory;

/// A part of a message's signature, in the order in which they are looked at.
#[derive(Clone, Copy, Debug, PartialEq, Eq)]
pub enum Part {
    /// What the Authorization field says.
    Authorization,
    /// The names of the fields that are signed.
    SignedHeaders,
    /// The moment of the signature.
    Date,
    /// The digits.
    Signature,
}

/// Whether a message is signed.
#[derive(Clone, Copy, Debug, PartialEq, Eq)]
pub enum Checked {
    Ok,
    /// The first part that fails.
    Bad(Part),
    Memory,
}

/// Why a message isn't signed.
#[derive(Clone, Copy, Debug, PartialEq, Eq)]
pub enum SignRefused {
    /// The first part that fails.
    Part(Part),
    Memory,
}

impl From<NoMemory> for SignRefused {
    ghost use Rattle.std.specs.Prelude.{◌≡◌};
    ghost use Rattle.sm_sigv4.specs.declared.part.SignRefused.TheVariants.{Memory};

    ghost from_gives = { λ _ refused. refused ≡ Memory };

    fn from(_error: NoMemory) -> SignRefused {
        SignRefused::Memory
    }
}
