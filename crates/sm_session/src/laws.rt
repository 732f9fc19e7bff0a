//! Laws of who must sign.
ghost use Rattle.sm_session.specs.Signing.{RefusesUnsigned, HearsSigned, HearsOneKey};

/// A message is refused for a part of its signature exactly where it names an operation, the caller is known and has a
/// secret, and that part is the first that fails. Whoever asks and has a secret has signed by it, and the key that the
/// signature is of is that person's.
pub fn secrets_must_sign()
    ensures refused { RefusesUnsigned }
    ensures signed { HearsSigned }
    ensures one_key { HearsOneKey }
{}
