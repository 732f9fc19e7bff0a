//! What an Authorization field says (AWS General Reference, "Create a signed AWS API request").
ghost use Rattle.std.specs.Prelude.{◌≡◌, option_map};
ghost use Rattle.sm_sigv4.specs.Authorizations.{scope_if, scope_at, scope_in, with_scope, names_in, signature_in, authorization_in};
ghost use Rattle.sm_sigv4.specs.Outcomes.{seen, said};

use crate::scope::{ScopeView, is_scope, is_signature};
use crate::texts::{behind, first_piece, past_spaces};
use sm_base::text::same_text;

/// What an Authorization field says.
#[derive(Clone, Copy)]
pub struct AuthorizationView<'a> {
    pub scope: ScopeView<'a>,
    /// The names of the fields that are signed.
    pub names: &'a [u8],
    /// The digits of the signature.
    pub digits: &'a [u8],
}

/// The scope, where each of its parts is in its form.
fn scope_if<'a>(scope: ScopeView<'a>, last: &[u8]) -> Option<ScopeView<'a>>
    ensures { option_map seen result ≡ scope_if (seen scope.entry) last.now }
{
    if same_text(last, b"aws4_request") && is_scope(scope) {
        Some(scope)
    } else {
        None
    }
}

/// The scope of the pieces of a text.
fn scope_at(text: &[u8]) -> Option<ScopeView<'_>>
    ensures { option_map seen result ≡ scope_at text.now }
{
    let Some((key, rest)) = first_piece(b'/', text) else {
        return None
    };
    let Some((date, rest)) = first_piece(b'/', rest) else {
        return None
    };
    let Some((region, rest)) = first_piece(b'/', rest) else {
        return None
    };
    let Some((service, last)) = first_piece(b'/', rest) else {
        return None
    };
    match first_piece(b'/', last) {
        Some(_) => None,
        None => scope_if(
            ScopeView {
                key,
                date,
                region,
                service,
            },
            last,
        ),
    }
}

/// The scope that a credential names.
fn scope_in(text: &[u8]) -> Option<ScopeView<'_>>
    ensures { option_map seen result ≡ scope_in text.now }
{
    match behind(b"AWS4-HMAC-SHA256 Credential=", text) {
        Some(rest) => scope_at(rest),
        None => None,
    }
}

/// The names of the fields that are signed.
fn names_in(text: &[u8]) -> Option<&[u8]>
    ensures { option_map (λ t. t.now) result ≡ names_in text.now }
{
    behind(b"SignedHeaders=", past_spaces(text))
}

/// The digits of the signature.
fn signature_in(text: &[u8]) -> Option<&[u8]>
    ensures { option_map (λ t. t.now) result ≡ signature_in text.now }
{
    match behind(b"Signature=", past_spaces(text)) {
        Some(digits) => {
            if is_signature(digits) {
                Some(digits)
            } else {
                None
            }
        }
        None => None,
    }
}

/// What three parts say.
fn joined<'a>(
    credential: &'a [u8],
    names: &'a [u8],
    signature: &'a [u8],
) -> Option<AuthorizationView<'a>>
    ensures { option_map said result
        ≡ with_scope (scope_in credential.now) (names_in names.now) (signature_in signature.now) }
{
    let Some(scope) = scope_in(credential) else {
        return None
    };
    let Some(names) = names_in(names) else {
        return None
    };
    match signature_in(signature) {
        Some(digits) => Some(AuthorizationView {
            scope,
            names,
            digits,
        }),
        None => None,
    }
}

/// What an Authorization field says: three parts, with a comma and any spaces between two.
pub fn authorization_in(text: &[u8]) -> Option<AuthorizationView<'_>>
    ensures { option_map said result ≡ authorization_in text.now }
{
    let Some((credential, rest)) = first_piece(b',', text) else {
        return None
    };
    let Some((names, signature)) = first_piece(b',', rest) else {
        return None
    };
    match first_piece(b',', signature) {
        Some(_) => None,
        None => joined(credential, names, signature),
    }
}
