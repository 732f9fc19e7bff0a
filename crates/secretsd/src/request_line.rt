//! What the line of a request says.
ghost use Rattle.std.specs.Prelude.{◌≤◌};
ghost use Rattle.sm_base.specs.declared.limits.TheConstants.{LAST_DATE};

use crate::people_line::{is_key, split_at_byte};
use serde_json::Value;
use sm_base::limits::LAST_DATE;
use sm_dates::show;
use sm_http::{Front, MessageView, field_room, front_of};
use sm_json::Operation;
use sm_model::Moment;
use std::str;
use std::time::{Clock, Duration};

/// What stands for something that is not there.
const NONE: &str = "-";

/// The field that names who asks, in small letters.
const AUTHORIZATION: &[u8] = b"authorization:";

/// What stands before the key.
const CREDENTIAL: &[u8] = b"Credential=";

/// The greatest length of what names a secret, as an ARN.
const NAME_LIMIT: usize = 1_024;

/// How many seconds a day has.
const DAY: u64 = 86_400;

/// How a request was answered.
#[derive(Drop)]
pub struct Answered<'a> {
    /// What the reply begins with.
    pub reply: &'a [u8],
    pub spent: Duration,
}

/// Says the request that stands at the front of these bytes, and gives how many bytes it has. What is no message has
/// all of them.
pub fn say_answered(rt: &HostRuntime, heard: &[u8], answered: &Answered) -> usize {
    let mut room = field_room();
    match front_of(heard, &mut room) {
        Front::Whole(view, size) => {
            let head = size.saturating_sub(view.body.len()).min(heard.len());
            let key = key_in(heard.split_at(head).0);
            say_message(rt, key, &view, answered);
            size
        }
        Front::Bad(_) | Front::Partial => {
            say(rt, NONE, NONE, NONE, answered);
            heard.len()
        }
    }
}

/// Says a message. Of one that asks for no operation nothing is read.
fn say_message(rt: &HostRuntime, key: &str, view: &MessageView, answered: &Answered) {
    match view.target.and_then(Operation::of_target) {
        Some(operation) => match Value::from_slice(rt.alloc(), view.body) {
            Ok(body) => say(rt, key, operation.name(), secret_in(&body), answered),
            Err(_) => say(rt, key, operation.name(), NONE, answered),
        },
        None => say(rt, key, NONE, NONE, answered),
    }
}

/// Says a line.
fn say(rt: &HostRuntime, key: &str, operation: &str, secret: &str, answered: &Answered) {
    let status = status_of(answered.reply);
    let spent = answered.spent.as_micros();
    let now = time_of(rt);
    let hour = now % DAY / 3_600;
    let minute = now % 3_600 / 60;
    let second = now % 60;
    let _ = match show(rt.alloc(), Moment(now)) {
        Ok(date) => {
            let date = date.as_str();
            eprintln!(rt;
                "secretsd: {date}T{hour:02}:{minute:02}:{second:02}Z {key} {operation} {secret} {status} {spent}"
            )
        }
        Err(_) => eprintln!(rt; "secretsd: {now} {key} {operation} {secret} {status} {spent}"),
    };
}

/// The seconds since 1970 by the system's clock, as far as dates go.
fn time_of(rt: &HostRuntime) -> u64
    ensures { result ≤ LAST_DATE }
{
    match rt.since_1970() {
        Ok(now) => now.as_secs().min(LAST_DATE),
        Err(_) => 0,
    }
}

/// The key that a head names, by its first field that does so.
fn key_in(head: &[u8]) -> &str {
    let mut left = head;
    for _ in 0..head.len() {
        match split_at_byte(left, b'\n') {
            Some((line, rest)) => {
                if names_caller(line) {
                    return key_of(line);
                }
                left = rest;
            }
            None => return NONE,
        }
    }
    NONE
}

/// Whether a line of a head is the field that names who asks.
fn names_caller(line: &[u8]) -> bool {
    line.len() >= AUTHORIZATION.len()
        && line
            .split_at(AUTHORIZATION.len())
            .0
            .eq_ignore_ascii_case(AUTHORIZATION)
}

/// The key that a field spells.
fn key_of(field: &[u8]) -> &str {
    match split_at_byte(behind_credential(field), b'/') {
        Some((key, _)) if is_key(key) => str::from_utf8(key).unwrap_or(NONE),
        _ => NONE,
    }
}

/// What stands behind the first `Credential=`.
fn behind_credential(value: &[u8]) -> &[u8] {
    for place in 0..value.len() {
        if let Some(rest) = value.split_at(place).1.strip_prefix(CREDENTIAL) {
            return rest;
        }
    }
    b""
}

/// What names the secret in the members of a request.
fn secret_in(body: &Value) -> &str {
    match body.get("SecretId") {
        Some(id) => shown(id),
        None => match body.get("Name") {
            Some(name) => shown(name),
            None => NONE,
        },
    }
}

/// A text that may be the name of a secret or an ARN, by its characters, and nothing else.
fn shown(value: &Value) -> &str {
    match value.as_str() {
        Some(text) if is_shown(text.as_bytes()) => text,
        _ => NONE,
    }
}

/// Whether a text has only characters of names and of ARNs.
fn is_shown(text: &[u8]) -> bool {
    !text.is_empty() && text.len() <= NAME_LIMIT && text.iter().all(|byte| is_name_byte(*byte))
}

/// Whether a byte may stand in a name or an ARN.
fn is_name_byte(byte: u8) -> bool {
    byte.is_ascii_alphanumeric() || b"/_+=.@-:".contains(&byte)
}

/// The status of a reply, as three digits.
fn status_of(reply: &[u8]) -> &str {
    if reply.len() < 12 {
        return NONE;
    }
    let (front, _) = reply.split_at(12);
    let (_, status) = front.split_at(9);
    match str::from_utf8(status) {
        Ok(status) => status,
        Err(_) => NONE,
    }
}
