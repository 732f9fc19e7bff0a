//! The scope of a credential: whose key signs, and for which day, region and service.
ghost use Rattle.std.specs.Prelude.{◌≡◌, ℕ, ◌&&◌, nat_le, length};
ghost use Rattle.std.specs.Char.{is_ascii_digit};
ghost use Rattle.std.specs.List.{list_all};
ghost use Rattle.sm_base.specs.Spelling.{is_region_byte};
ghost use Rattle.sm_sigv4.specs.Authorizations.{is_key_byte, is_lower_digit, is_key, is_date, is_place, is_signature, is_scope};
ghost use Rattle.sm_sigv4.specs.Outcomes.{seen};

use sm_base::Text;
use sm_base::limits::KEY_LIMIT;

/// Whose key signs, and for which day, region and service.
#[derive(Drop)]
pub struct Scope {
    pub key: Text,
    pub date: Text,
    pub region: Text,
    pub service: Text,
}

/// The same, where it stands in a text.
#[derive(Clone, Copy)]
pub struct ScopeView<'a> {
    pub key: &'a [u8],
    pub date: &'a [u8],
    pub region: &'a [u8],
    pub service: &'a [u8],
}

impl Scope {
    /// The scope as it is seen in a text.
    pub fn view(&self) -> ScopeView<'_>
        ensures { seen result ≡ self.now }
    {
        ScopeView {
            key: self.key.as_bytes(),
            date: self.date.as_bytes(),
            region: self.region.as_bytes(),
            service: self.service.as_bytes(),
        }
    }
}

#[tactic(auto, unfolding(crate::specs::Authorizations::is_key_byte))]
fn is_key_byte(byte: u8) -> bool
    ensures { result ≡ is_key_byte byte }
{
    byte.is_ascii_alphanumeric() || byte == b'_'
}

#[tactic(auto, unfolding(crate::specs::Authorizations::is_lower_digit))]
fn is_lower_digit(byte: u8) -> bool
    ensures { result ≡ is_lower_digit byte }
{
    byte.is_ascii_digit() || (b'a' <= byte && byte <= b'f')
}

#[tactic(auto, unfolding(sm_base::specs::Spelling::is_region_byte))]
fn is_place_byte(byte: u8) -> bool
    ensures { result ≡ is_region_byte byte }
{
    byte.is_ascii_lowercase() || byte.is_ascii_digit() || byte == b'-'
}

fn are_key_bytes(text: &[u8]) -> bool
    ensures { result ≡ list_all is_key_byte text.now }
{
    text.iter().all(|byte| is_key_byte(*byte))
}

fn are_digits(text: &[u8]) -> bool
    ensures { result ≡ list_all is_ascii_digit text.now }
{
    text.iter().all(|byte| byte.is_ascii_digit())
}

fn are_place_bytes(text: &[u8]) -> bool
    ensures { result ≡ list_all is_region_byte text.now }
{
    text.iter().all(|byte| is_place_byte(*byte))
}

fn are_lower_digits(text: &[u8]) -> bool
    ensures { result ≡ list_all is_lower_digit text.now }
{
    text.iter().all(|byte| is_lower_digit(*byte))
}

/// Whether the text is a key: 1 to 128 ASCII letters, digits or `_`.
fn is_key(text: &[u8]) -> bool
    ensures { result ≡ is_key text.now }
{
    1 <= text.len() && text.len() <= KEY_LIMIT && are_key_bytes(text)
}

/// Whether the text is a date: 8 digits.
fn is_date(text: &[u8]) -> bool
    ensures { result ≡ is_date text.now }
{
    8 <= text.len() && text.len() <= 8 && are_digits(text)
}

/// Whether the text is a region or a service: 1 to 64 lower-case letters, digits or `-`.
fn is_place(text: &[u8]) -> bool
    ensures { result ≡ is_place text.now }
{
    1 <= text.len() && text.len() <= 64 && are_place_bytes(text)
}

/// Whether the text is a signature: 64 lower-case digits.
pub fn is_signature(text: &[u8]) -> bool
    ensures { result ≡ is_signature text.now }
{
    64 <= text.len() && text.len() <= 64 && are_lower_digits(text)
}

/// Whether each part of a scope is in its form.
#[tactic(auto, unfolding(crate::specs::Authorizations::is_scope))]
pub fn is_scope(scope: ScopeView) -> bool
    ensures { result ≡ is_scope (seen scope.entry) }
{
    is_key(scope.key) && is_date(scope.date) && is_place(scope.region) && is_place(scope.service)
}
