//! The Authorization field that signs a message.
ghost use Rattle.std.specs.Prelude.{◌≡◌, ◌&&◌, ◌++◌, None, IsTrue, IfOk, OnOk, codes, string_bytes};
ghost use Rattle.std.specs.List.{list_all};
ghost use Rattle.std.specs.Str.{is_utf8};
ghost use Rattle.sm_base.specs.Outcomes.{OrMemory};
ghost use Rattle.sm_http.specs.Heads.{field_of};
ghost use Rattle.sm_http.specs.Messages.{Message as Content};
ghost use Rattle.sm_http.specs.Reading.{content};
ghost use Rattle.sm_sigv4.specs.Authorizations.{spelled, scope_text};
ghost use Rattle.sm_sigv4.specs.Names.{is_field_name, are_signable, names_text};
ghost use Rattle.sm_sigv4.specs.Signatures.{field_with, sign_at, sign, signed};
ghost use Rattle.sm_sigv4.specs.Outcomes.{told, more_names};
ghost use Rattle.sm_sigv4.specs.Laws.{Carries};

use crate::fields::first_value;
use crate::moment::is_moment;
use crate::names::{are_signable, is_field_name};
use crate::part::{Part, SignRefused};
use crate::scope::{Scope, is_scope};
use crate::signature::signature;
use sm_base::{NoMemory, Text};
use sm_http::Message;
use std::alloc::Global;
use std::str;

/// Whether each text is a field's name in lower case.
fn are_field_names(names: &[Text]) -> bool
    ensures { result ≡ list_all is_field_name names.now }
{
    names.iter().all(|name| is_field_name(name.as_bytes()))
}

/// The names behind a text, each behind a semicolon.
#[tactic(auto, using(crate::proofs::SigningLemmas::one_name_more, crate::proofs::SigningLemmas::no_name_more))]
fn with_more_names(text: String, names: &[Text]) -> Result<String, NoMemory>
    ensures { IfOk result (λ whole. string_bytes whole ≡ string_bytes text ++ more_names names.now) }
{
    let mut whole = text;
    for name in names {
        whole.push_str(";")?;
        whole.push_str(name.as_str())?;
    }
    Ok(whole)
}

/// The text of the names, with a semicolon between two.
fn names_text(alloc: Global, names: &[Text]) -> Result<String, NoMemory>
    ensures { IfOk result (λ text. string_bytes text ≡ names_text names.now) }
{
    match names {
        [] => Ok(String::new(alloc)),
        [first, ..] => {
            let text = String::from_str(alloc, first.as_str())?;
            with_more_names(text, names.split_at(1).1)
        }
    }
}

/// Puts the key, the day, the region and the service.
#[tactic(auto, using(crate::proofs::SigningLemmas::scope_pushed))]
fn push_scope(text: &mut String, scope: &Scope) -> Result<(), NoMemory>
    ensures { OnOk result (string_bytes text.new
        ≡ string_bytes text.old ++ (scope.now.key ++ codes "/" ++ scope_text scope.now)) }
{
    text.push_str(scope.key.as_str())?;
    text.push_str("/")?;
    text.push_str(scope.date.as_str())?;
    text.push_str("/")?;
    text.push_str(scope.region.as_str())?;
    text.push_str("/")?;
    text.push_str(scope.service.as_str())?;
    text.push_str("/aws4_request")?;
    Ok(())
}

/// The field of a scope, names and a signature's digits.
fn spelled(alloc: Global, scope: &Scope, names: &str, digits: &str) -> Result<Text, NoMemory>
    ensures { IfOk result (λ text. text
        ≡ spelled (record { scope = scope.now; names = names.now; digits = digits.now })) }
{
    let mut text = String::from_str(alloc, "AWS4-HMAC-SHA256 Credential=")?;
    push_scope(&mut text, scope)?;
    text.push_str(", SignedHeaders=")?;
    text.push_str(names)?;
    text.push_str(", Signature=")?;
    text.push_str(digits)?;
    Ok(Text::new(text))
}

/// Digits as a text.
#[tactic(auto, using(sm_base::proofs::FaultLemmas::utf8_is_text))]
fn as_text(digits: &[u8]) -> &str
    requires { IsTrue (is_utf8 digits.now) }
    ensures { result.now ≡ digits.now }
{
    match str::from_utf8(digits) {
        Ok(text) => text,
        Err(_) => unreachable!(),
    }
}

/// The field of a scope and names, for a message that is signed at a moment.
#[tactic(auto, using(crate::proofs::SigningLemmas::signature_is_text))]
fn field_with(
    alloc: Global,
    secret: &[u8],
    message: &Message,
    scope: &Scope,
    names: &str,
    moment: &[u8],
) -> Result<Text, NoMemory>
    ensures { IfOk result (λ text. text ≡ field_with secret.now (content message.now) scope.now names.now moment.now) }
{
    let digits = signature(secret, scope.view(), moment, message, names.as_bytes());
    spelled(alloc, scope, names, as_text(&digits))
}

/// The field of a scope and names, where the message has a moment of the scope's day.
fn sign_at(
    alloc: Global,
    secret: &[u8],
    message: &Message,
    scope: &Scope,
    names: &[Text],
) -> Result<Text, SignRefused>
    ensures { OrMemory (told result) (sign_at secret.now (content message.now) scope.now names.now
        (field_of (codes "x-amz-date") (content message.now).fields)) }
{
    let Some(moment) = first_value(message.fields.as_slice(), b"x-amz-date") else {
        return Err(SignRefused::Part(Part::Date));
    };
    if !is_moment(scope.date.as_bytes(), moment) {
        return Err(SignRefused::Part(Part::Date));
    }
    let text = names_text(alloc, names)?;
    Ok(field_with(alloc, secret, message, scope, text.as_str(), moment)?)
}

/// Whether the fields of these names may be signed, or out of memory.
#[tactic(auto, using(crate::proofs::SigningLemmas::names_come_back, crate::proofs::SigningLemmas::no_names_fit, crate::proofs::SigningLemmas::none_fits))]
fn may_sign(alloc: Global, message: &Message, names: &[Text]) -> Result<bool, NoMemory>
    ensures { IfOk result (λ may. may ≡ are_signable (content message.now).fields names.now) }
{
    if names.is_empty() || !are_field_names(names) {
        return Ok(false);
    }
    let text = names_text(alloc, names)?;
    Ok(are_signable(message.fields.as_slice(), text.as_str().as_bytes()))
}

/// The Authorization field by which a secret signs a message, where these fields are to be signed. Else the first part
/// that can't be: the scope, the names or the moment.
pub fn sign(
    alloc: Global,
    secret: &[u8],
    message: &Message,
    scope: &Scope,
    names: &[Text],
) -> Result<Text, SignRefused>
    ensures answer { OrMemory (told result) (sign secret.now (content message.now) scope.now names.now) }
    ensures signs { IfOk result (λ value. (sent : Content) → Carries (content message.now) value sent
        → signed secret.now sent ≡ None) }
{
    if !is_scope(scope.view()) {
        return Err(SignRefused::Part(Part::Authorization));
    }
    match may_sign(alloc, message, names)? {
        true => sign_at(alloc, secret, message, scope, names),
        false => Err(SignRefused::Part(Part::SignedHeaders)),
    }
}
