//! Who asks for what by a message.
ghost use Rattle.std.specs.Prelude.{◌≡◌, ◌&&◌, codes};
ghost use Rattle.sm_account.specs.Handling.{HasShortTexts};
ghost use Rattle.std.specs.Str.{bytes_eq};
ghost use Rattle.sm_http.specs.Reading.{content};
ghost use Rattle.sm_json.specs.Asks.{asks_of};
ghost use Rattle.sm_session.specs.Answer.{asked_by, asked_of, heard, is_request, operation_in};
ghost use Rattle.sm_session.specs.Askers.{asker_of};
ghost use Rattle.sm_session.specs.Hearing.{Hears, IfAsks};

use crate::asking::{Asker, asker_of};
use crate::fields::value_of;
use crate::heard::Heard;
use sm_http::Message;
use sm_json::{Operation, ReadRequest, Scratch, request_of_with};
use sm_model::{Person, Why};
use sm_principal::People;
use std::alloc::Global;

/// Who asks for what by a message, or the first refusal: of the operation's name, of who asks, of the signature, of the
/// body's JSON and of its members. What reading a body needs of memory is kept in the scratch from message to message.
pub fn read(scratch: &mut Scratch, alloc: Global, people: &People, message: &Message) -> Heard
    ensures hears { Hears result (heard people.now (content message.now)) }
    ensures short { IfAsks result HasShortTexts }
{
    match operation_of(message) {
        Some(operation) => ask(scratch, alloc, people, operation, message),
        None => Heard::Refused(Why::UnknownOperation),
    }
}

/// The operation that a message names: a request is POST to /, and its X-Amz-Target names the operation.
fn operation_of(message: &Message) -> Option<Operation>
    ensures { result ≡ operation_in (content message.now) }
{
    if is_post_to_root(message.method.as_slice(), message.path.as_slice()) {
        match value_of(message.fields.as_slice(), b"x-amz-target") {
            Some(target) => Operation::of_target(target),
            None => None,
        }
    } else {
        None
    }
}

/// Whether the method is POST and the path is /.
fn is_post_to_root(method: &[u8], path: &[u8]) -> bool
    ensures { result ≡ is_request method.now path.now }
{
    method == b"POST".as_slice() && path == b"/".as_slice()
}

/// Who asks for an operation by a message, and what by its body.
fn ask(
    scratch: &mut Scratch,
    alloc: Global,
    people: &People,
    operation: Operation,
    message: &Message,
) -> Heard
    ensures hears { Hears result
        (asked_of (asker_of people.now (content message.now)) operation message.now.body) }
    ensures short { IfAsks result HasShortTexts }
{
    match asker_of(alloc, people, message) {
        Asker::Is(person) => ask_as(scratch, alloc, person, operation, message.body.as_slice()),
        Asker::Refused(why) => Heard::Refused(why),
        Asker::Memory => Heard::Memory,
    }
}

/// What a person asks for by a message's body.
fn ask_as(
    scratch: &mut Scratch,
    alloc: Global,
    person: Person,
    operation: Operation,
    body: &[u8],
) -> Heard
    ensures hears { Hears result (asked_by person (asks_of operation body.now)) }
    ensures same { IfAsks result (λ asker. asker ≡ person) }
{
    match request_of_with(scratch, alloc, operation, body) {
        ReadRequest::Ok(request) => Heard::Ask(person, request),
        ReadRequest::Unknown => Heard::Refused(Why::UnknownOperation),
        ReadRequest::NotJson => Heard::Refused(Why::NotJson),
        ReadRequest::BadMember(name) => Heard::Refused(Why::BadMember(name)),
        ReadRequest::Left(name) => Heard::Refused(Why::Left(name)),
        ReadRequest::Memory => Heard::Memory,
    }
}
