//! Whether a message is signed.
ghost use Rattle.std.specs.Prelude.{◌≡◌, map, codes, option_map, option_and_then};
ghost use Rattle.sm_http.specs.Heads.{field_of};
ghost use Rattle.sm_http.specs.Reading.{content, pair_of};
ghost use Rattle.sm_sigv4.specs.Authorizations.{authorization_in};
ghost use Rattle.sm_sigv4.specs.Signatures.{by_moment, by_authorization, signed};
ghost use Rattle.sm_sigv4.specs.Outcomes.{said, checked};

use crate::authorization::{AuthorizationView, authorization_in};
use crate::digits::are_same;
use crate::fields::first_value;
use crate::moment::is_moment;
use crate::names::are_signable;
use crate::part::{Checked, Part};
use crate::signature::signature;
use sm_http::{Field, Message};

/// What the Authorization field says.
fn said_in(fields: &[Field]) -> Option<AuthorizationView<'_>>
    ensures { option_map said result
        ≡ option_and_then authorization_in (field_of (codes "authorization") (map pair_of fields.now)) }
{
    match first_value(fields, b"authorization") {
        Some(value) => authorization_in(value),
        None => None,
    }
}

/// Whether the moment and the digits are right.
fn by_moment(secret: &[u8], message: &Message, view: AuthorizationView) -> Checked
    ensures { result ≡ checked (by_moment secret.now (content message.now) (said view.entry)
        (field_of (codes "x-amz-date") (content message.now).fields)) }
{
    let Some(moment) = first_value(message.fields.as_slice(), b"x-amz-date") else {
        return Checked::Bad(Part::Date);
    };
    if !is_moment(view.scope.date, moment) {
        return Checked::Bad(Part::Date);
    }
    let wanted = signature(secret, view.scope, moment, message, view.names);
    if are_same(view.digits, &wanted) {
        Checked::Ok
    } else {
        Checked::Bad(Part::Signature)
    }
}

/// Whether this secret signed the message: else the first part that fails. It takes no memory, and copies nothing of
/// the message.
pub fn check(secret: &[u8], message: &Message) -> Checked
    ensures { result ≡ checked (signed secret.now (content message.now)) }
{
    let Some(view) = said_in(message.fields.as_slice()) else {
        return Checked::Bad(Part::Authorization);
    };
    if !are_signable(message.fields.as_slice(), view.names) {
        return Checked::Bad(Part::SignedHeaders);
    }
    by_moment(secret, message, view)
}
