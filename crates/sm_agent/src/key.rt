//! The keys of a query.
ghost use Rattle.std.specs.Prelude.{◌≡◌};
ghost use Rattle.sm_base.specs.Texts.{same_text};
ghost use Rattle.sm_agent.specs.Queries.{key_text, key_of, is_true, is_false, passes};

use sm_base::spelled::{is_label, is_secret_id, is_token};
use sm_base::text::same_text;

/// What a query may give: AWS Secrets Manager User Guide, "Using the AWS Secrets Manager Agent".
#[derive(Clone, Copy, Debug, PartialEq, Eq)]
pub(crate) enum Key {
    SecretId,
    VersionId,
    VersionStage,
    RefreshNow,
}

impl Key {
    /// How it is spelled.
    #[tactic(auto, unfolding(crate::specs::Queries::key_text))]
    pub(crate) fn text(self) -> &'static str
        ensures { result.now ≡ key_text self }
    {
        match self {
            Key::SecretId => "secretId",
            Key::VersionId => "versionId",
            Key::VersionStage => "versionStage",
            Key::RefreshNow => "refreshNow",
        }
    }

    /// Whether a text is its spelling.
    fn is_text(self, text: &str) -> bool
        ensures { result ≡ same_text text.now (key_text self) }
    {
        same_text(text.as_bytes(), self.text().as_bytes())
    }

    /// The key that is spelled so.
    pub(crate) fn of(text: &str) -> Option<Key>
        ensures { result ≡ key_of text.now }
    {
        if Key::SecretId.is_text(text) {
            Some(Key::SecretId)
        } else if Key::VersionId.is_text(text) {
            Some(Key::VersionId)
        } else if Key::VersionStage.is_text(text) {
            Some(Key::VersionStage)
        } else if Key::RefreshNow.is_text(text) {
            Some(Key::RefreshNow)
        } else {
            None
        }
    }

    /// Whether a text is in the form of its value.
    pub(crate) fn passes(self, text: &str) -> bool
        ensures { result ≡ passes self text.now }
    {
        match self {
            Key::SecretId => is_secret_id(text.as_bytes()),
            Key::VersionId => is_token(text.as_bytes()),
            Key::VersionStage => is_label(text.as_bytes()),
            Key::RefreshNow => is_true(text) || is_false(text),
        }
    }
}

/// Whether the text is `true`.
#[tactic(auto, unfolding(crate::specs::Queries::is_true))]
pub(crate) fn is_true(text: &str) -> bool
    ensures { result ≡ is_true text.now }
{
    same_text(text.as_bytes(), b"true")
}

/// Whether the text is `false`.
#[tactic(auto, unfolding(crate::specs::Queries::is_false))]
fn is_false(text: &str) -> bool
    ensures { result ≡ is_false text.now }
{
    same_text(text.as_bytes(), b"false")
}
