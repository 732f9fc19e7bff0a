//! The digits of a signature.
ghost use Rattle.std.specs.Prelude.{◌≡◌, ℕ, List, ◌++◌};
ghost use Rattle.sm_http.specs.Reading.{content};
ghost use Rattle.sm_sigv4.specs.Hmac.{IsMac};
ghost use Rattle.sm_sigv4.specs.Authorizations.{scope_text};
ghost use Rattle.sm_sigv4.specs.Signatures.{signing_key, signature};
ghost use Rattle.sm_sigv4.specs.Outcomes.{seen};

use crate::canonical::canonical_digest;
use crate::digits::digits_of;
use crate::mac::{Mac, hmac};
use crate::scope::ScopeView;
use sm_http::Message;

/// The key that signs for a day, a region and a service.
#[tactic(auto, unfolding(crate::specs::Signatures::signing_key))]
fn signing_key(secret: &[u8], scope: ScopeView) -> [u8; 32]
    ensures { result ≡ signing_key secret.now (seen scope.entry) }
{
    let mut mac = Mac::of_parts(b"AWS4", secret);
    mac.update(scope.date);
    let of_day = mac.finalize();
    let of_region = hmac(&of_day, scope.region);
    let of_service = hmac(&of_region, scope.service);
    hmac(&of_service, b"aws4_request")
}

/// Puts the day, the region and the service.
fn put_scope(mac: &mut Mac, scope: ScopeView)
    ensures { (key text : List ℕ) → IsMac mac.old key text → IsMac mac.new key (text ++ scope_text (seen scope.entry)) }
{
    mac.update(scope.date);
    mac.update(b"/");
    mac.update(scope.region);
    mac.update(b"/");
    mac.update(scope.service);
    mac.update(b"/aws4_request");
}

/// The digits of the signature of a message at a moment, where the fields of these names are signed.
#[tactic(auto, unfolding(crate::specs::Signatures::signature))]
pub fn signature(
    secret: &[u8],
    scope: ScopeView,
    moment: &[u8],
    message: &Message,
    names: &[u8],
) -> [u8; 64]
    ensures { result ≡ signature secret.now (seen scope.entry) moment.now (content message.now) names.now }
{
    let mut mac = Mac::of_parts(b"", &signing_key(secret, scope));
    mac.update(b"AWS4-HMAC-SHA256");
    mac.update(b"\n");
    mac.update(moment);
    mac.update(b"\n");
    put_scope(&mut mac, scope);
    mac.update(b"\n");
    mac.update(&digits_of(&canonical_digest(message, names)));
    digits_of(&mac.finalize())
}
