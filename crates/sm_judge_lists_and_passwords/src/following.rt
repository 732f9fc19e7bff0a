//! Laws of pages that follow one another: AWS Secrets Manager API Reference, ListSecrets and ListSecretVersionIds
//! (NextToken).
ghost use Rattle.sm_judge_lists_and_passwords.specs.Following.{SecretsEnd, SecretsFollow, VersionsEnd, VersionsFollow};

/// The law that following the tokens from the first page of sound rows to the last shows each secret that is listed,
/// once and in the order that was asked for.
pub fn show_each_secret()
    ensures { SecretsFollow }
{}

/// The law that following the tokens comes to a last page, where the filters are in their forms.
pub fn end_with_secrets()
    ensures { SecretsEnd }
{}

/// The law that following the tokens from the first page of a sound secret's versions to the last shows each version
/// that is listed, once and in order of creation.
pub fn show_each_version()
    ensures { VersionsFollow }
{}

/// The law that following the tokens of versions comes to a last page.
pub fn end_with_versions()
    ensures { VersionsEnd }
{}
