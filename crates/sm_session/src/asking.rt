//! Who asks by a message (IAM User Guide, "Create a signed AWS API request").
ghost use Rattle.std.specs.Prelude.{◌≡◌, map, codes, option_copied};
ghost use Rattle.sm_account.specs.Handling.{HasShortTexts};
ghost use Rattle.sm_http.specs.Reading.{content};
ghost use Rattle.sm_principal.specs.Callers.{secret_of};
ghost use Rattle.sm_session.specs.Askers.{part_of, signed_by, asker_of, IsAsker, IfAsker};

use crate::fields::value_of;
use sm_http::Message;
use sm_model::{Part, Person, Why};
use sm_principal::{CallerRefused, People};
use sm_sigv4::{Checked, check};
use std::alloc::Global;

/// Who asks by a message, or why nobody does.
#[derive(Drop)]
pub(crate) enum Asker {
    Is(Person),
    Refused(Why),
    Memory,
}

/// The person whom a message's Authorization field names, where whoever has a secret has signed the message by it.
#[tactic(auto, unfolding(crate::specs::Askers::asker_of))]
pub(crate) fn asker_of(alloc: Global, people: &People, message: &Message) -> Asker
    ensures is { IsAsker result (asker_of people.now (content message.now)) }
    ensures short { IfAsker result HasShortTexts }
{
    let authorization = value_of(message.fields.as_slice(), b"authorization");
    match people.caller(alloc, authorization) {
        Ok(person) => signed_by(people, person, message),
        Err(CallerRefused::NoCredential) => Asker::Refused(Why::NoCredential),
        Err(CallerRefused::Unknown(key)) => Asker::Refused(Why::UnknownKey(key)),
        Err(CallerRefused::Memory) => Asker::Memory,
    }
}

/// The person, where there is no secret of the person, or the message is signed by it.
fn signed_by(people: &People, person: Person, message: &Message) -> Asker
    ensures is { IsAsker result (signed_by person (secret_of people.now person.key) (content message.now)) }
    ensures same { IfAsker result (λ asker. asker ≡ person) }
{
    match people.secret(&person.key) {
        Some(secret) => match check(secret, message) {
            Checked::Ok => Asker::Is(person),
            Checked::Bad(part) => Asker::Refused(Why::BadSignature(part_of(part))),
            Checked::Memory => Asker::Memory,
        },
        None => Asker::Is(person),
    }
}

/// A part of a signature, as a cause names it.
fn part_of(part: sm_sigv4::Part) -> Part
    ensures { result ≡ part_of part }
{
    match part {
        sm_sigv4::Part::Authorization => Part::Authorization,
        sm_sigv4::Part::SignedHeaders => Part::SignedHeaders,
        sm_sigv4::Part::Date => Part::Date,
        sm_sigv4::Part::Signature => Part::Signature,
    }
}
