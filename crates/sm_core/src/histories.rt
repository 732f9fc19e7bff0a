//! Laws of histories.
ghost use Rattle.sm_core.specs.Histories.{LegalKeepsSound};
ghost use Rattle.sm_core.specs.Tokens.{LegalKeepsVersions, TokensActOnce};
ghost use Rattle.sm_core.specs.Vouching.{LegalKeepsVouched};

/// The law that sound rows stay sound along a legal history whose moments a clock can give.
pub fn keep_sound_along_histories()
    ensures { LegalKeepsSound }
{}

/// The law that a version which a rotation made current was accepted by its test, along a legal history whose answers
/// to tests are the rotator's: vouched rows stay vouched.
pub fn keep_vouched_along_histories()
    ensures { LegalKeepsVouched }
{}

/// The law that a legal entry leaves the versions of each secret that stays, and each value that was given.
pub fn keep_versions_at_entries()
    ensures { LegalKeepsVersions }
{}

/// The law that a token acts once: along a legal history whose moments a clock can give no two entries add the version
/// of a token to a secret, and no two give it its value.
pub fn let_tokens_act_once()
    ensures { TokensActOnce }
{}
