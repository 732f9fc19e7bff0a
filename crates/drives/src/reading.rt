//! Lists of calls as text.
use sm_base::{Bytes, NoMemory};
use sm_drive::Call;
use sm_json::{Operation, ReadRequest, request_of};
use sm_model::{Answer, Moment, Person, Request, Text, Value, need};
use std::alloc::Global;

/// What the first file holds, the calls of a list, the device calls that fail, the answers of the rotator in order,
/// whether the secrets are shown, and the fill of each crash.
#[derive(Drop)]
pub struct Asked {
    pub held: Vec<u8>,
    pub calls: Vec<Call>,
    pub fails: Vec<u64>,
    pub from: Option<u64>,
    pub answers: Vec<Answer>,
    pub shows: bool,
    pub crashes: Vec<u8>,
}

/// A word, and what is behind the space after it.
fn parted(text: &str) -> (&str, &str) {
    match text.split_once(' ') {
        Some((word, rest)) => (word, rest),
        None => (text, ""),
    }
}

fn number(text: &str) -> u64 {
    text.parse::<u64>().unwrap_or(0)
}

/// The bytes that are drawn from this one on.
fn drawn_from(alloc: Global, first: u64, count: usize) -> Result<Bytes, NoMemory> {
    let mut bytes = Vec::new(alloc);
    for place in 0..count as u64 {
        bytes.push((first.wrapping_add(place) % 256) as u8)?;
    }
    Ok(Bytes::new(bytes))
}

/// The 16 bytes of a token that are drawn from this one on.
fn token_from(first: u64) -> [u8; 16] {
    let mut bytes = [0u8; 16];
    for place in 0..16usize {
        bytes[place] = (first.wrapping_add(place as u64) % 256) as u8;
    }
    bytes
}

/// The request of an operation's name and its JSON, if it is one.
fn read(alloc: Global, name: &str, json: &str) -> Option<Request> {
    let operation = Operation::from_name(name.as_bytes())?;
    match request_of(alloc, operation, json.as_bytes()) {
        ReadRequest::Ok(request) => Some(request),
        _ => None,
    }
}

/// The account's root.
fn root() -> Person {
    Person {
        key: Text::fixed(""),
        arn: Text::fixed("arn:aws:iam::000000000000:root"),
        full: true,
    }
}

/// The request of the account's root, with so many bytes drawn as it needs.
fn handle_of(alloc: Global, text: &str) -> Result<Option<Call>, NoMemory> {
    let (moment, text) = parted(text);
    let (first, text) = parted(text);
    let (name, json) = parted(text);
    let Some(request) = read(alloc, name, json) else {
        return Ok(None);
    };
    let drawn = drawn_from(alloc, number(first), need(&request))?;
    Ok(Some(Call::Handle(root(), Moment(number(moment)), drawn, request)))
}

/// The call of a line, if it is one.
fn call_of(alloc: Global, word: &str, rest: &str) -> Result<Option<Call>, NoMemory> {
    let (first, second) = parted(rest);
    if word == "ask" {
        handle_of(alloc, rest)
    } else if word == "work" {
        Ok(Some(Call::Work(Moment(number(first)))))
    } else if word == "report" {
        Ok(Some(Call::Report(number(first) as usize, Moment(number(second)))))
    } else if word == "due" {
        Ok(Some(Call::Due(Moment(number(first)), token_from(number(second)))))
    } else if word == "restart" {
        Ok(Some(Call::Restart))
    } else {
        Ok(None)
    }
}

/// The answer of a line, if it is one.
fn answer_of(alloc: Global, text: &str) -> Result<Option<Answer>, NoMemory> {
    let (word, rest) = parted(text);
    if word == "yes" {
        Ok(Some(Answer::Yes))
    } else if word == "no" {
        Ok(Some(Answer::No))
    } else if word == "failed" {
        Ok(Some(Answer::Failed))
    } else if word == "value" {
        let text = Text::new(String::from_str(alloc, rest)?);
        Ok(Some(Answer::Value(Value::Text(text))))
    } else {
        Ok(None)
    }
}

impl Asked {
    /// No calls, and none that fails. It takes no memory.
    pub fn new(alloc: Global) -> Asked {
        Asked {
            held: Vec::new(alloc),
            calls: Vec::new(alloc),
            fails: Vec::new(alloc),
            from: None,
            answers: Vec::new(alloc),
            shows: false,
            crashes: Vec::new(alloc),
        }
    }

    /// Adds what a line says. One that says nothing is passed over.
    pub fn add(&mut self, alloc: Global, line: &str) -> Result<(), NoMemory> {
        let (word, rest) = parted(line);
        if word == "fail" {
            self.fails.push(number(rest))?;
        } else if word == "from" {
            self.from = Some(number(rest));
        } else if word == "show" {
            self.shows = true;
        } else if word == "crash" {
            self.crashes.push((number(rest) % 256) as u8)?;
        } else if word == "hold" {
            self.hold(alloc, rest)?;
        } else if word == "answer" {
            match answer_of(alloc, rest)? {
                Some(answer) => self.answers.push(answer)?,
                None => {}
            }
        } else {
            match call_of(alloc, word, rest)? {
                Some(call) => self.calls.push(call)?,
                None => {}
            }
        }
        Ok(())
    }

    /// Adds bytes to what the first file holds, so many times.
    fn hold(&mut self, alloc: Global, text: &str) -> Result<(), NoMemory> {
        let (count, digits) = parted(text);
        match hex::decode(alloc, digits) {
            Ok(bytes) => {
                for _ in 0..number(count) {
                    self.held.extend_from_slice(bytes.as_slice())?;
                }
                Ok(())
            }
            Err(_) => Ok(()),
        }
    }
}
