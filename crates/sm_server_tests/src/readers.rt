//! A caching reader over one connection, whose clock goes on for minutes and back.
use crate::script::{Reply, script};
use sm_base::{Bytes, List, Moment, NoMemory};
use sm_io::{ListClock, MemorySink, MemorySource};
use sm_memory_fixtures::exchanges::{BAD, FAULT, OK};
use sm_memory_fixtures::messages::add_reply;
use sm_model::Fails;
use sm_server::{Status, run_agent};
use std::alloc::Global;
use std::test::Fail;

const FAILED: &str = r#"{"Message":"upstream fault","__type":"InternalServiceError"}"#;

/// What the server answers, one after the other, save at the calls that fail.
const REPLIES: [Reply; 11] = [
    Reply::Fine("one"),
    Reply::Fine("two"),
    Reply::Fine("three"),
    Reply::Bad("four"),
    Reply::Bad("five"),
    Reply::Fine("six"),
    Reply::Bad("seven"),
    Reply::Fine("eight"),
    Reply::Fine("nine"),
    Reply::Fine("ten"),
    Reply::Fine("eleven"),
];

const FAILING_CALLS: [u64; 2] = [3, 5];

/// When each row is asked.
const MOMENTS: [Moment; 18] = [
    Moment(1_700_000_000),
    Moment(1_700_000_299),
    Moment(1_700_000_300),
    Moment(1_700_000_599),
    Moment(1_700_000_600),
    Moment(1_700_000_600),
    Moment(1_700_000_601),
    Moment(1_700_000_601),
    Moment(1_700_000_601),
    Moment(1_700_000_601),
    Moment(1_700_000_601),
    Moment(1_700_000_601),
    Moment(1_700_000_601),
    Moment(1_700_000_601),
    Moment(1_700_000_601),
    Moment(1_700_000_901),
    Moment(1_700_000_601),
    Moment(1_700_000_601),
];

/// The query of a request, and the status line and the body of its reply.
type Row = (&'static str, &'static str, &'static str);

/// An answer is kept for 300 seconds, and is given to each spelling of its question; a fault and a fresh question take
/// away nothing, a refusal is not kept and takes away what was; each version is a question of its own; a clock that
/// goes back makes no answer younger.
const ROWS: [Row; 18] = [
    ("secretId=db%2Fapp", OK, "one"),
    ("secretId=db%2fapp&refreshNow=false", OK, "one"),
    ("secretId=db/app", OK, "two"),
    ("secretId=db%2Fapp", OK, "two"),
    ("secretId=db%2Fapp", FAULT, FAILED),
    ("secretId=db%2Fapp&refreshNow=true", OK, "three"),
    ("secretId=db%2Fapp&refreshNow=true", FAULT, FAILED),
    ("secretId=db%2Fapp", OK, "three"),
    ("secretId=a", BAD, "four"),
    ("secretId=a", BAD, "five"),
    ("secretId=a", OK, "six"),
    ("secretId=a&refreshNow=true", BAD, "seven"),
    ("secretId=a", OK, "eight"),
    ("secretId=a&versionStage=AWSPREVIOUS", OK, "nine"),
    ("secretId=a", OK, "eight"),
    ("secretId=b", OK, "ten"),
    ("secretId=a", OK, "eleven"),
    ("secretId=b", OK, "ten"),
];

/// The bytes of the requests, and those of the replies.
fn streams(alloc: Global) -> Result<(Vec<u8>, Vec<u8>), NoMemory> {
    let mut input = Vec::new(alloc);
    let mut output = Vec::new(alloc);
    for (query, status, body) in &ROWS {
        let request = format!(in alloc; "GET /secretsmanager/get?{query} HTTP/1.1\r\n\r\n")?;
        input.extend_from_slice(request.as_bytes())?;
        add_reply(alloc, &mut output, status, body)?;
    }
    Ok((input, output))
}

/// How a reader ends that is asked so, what it writes, and how often it asks the server.
fn read(alloc: Global, input: &[u8]) -> Result<(Status, Bytes, usize), NoMemory> {
    let mut words = Vec::new(alloc);
    words.push(String::from_str(alloc, "--mode=agent")?)?;
    let mut upstream = script(alloc, &REPLIES, &FAILING_CALLS)?;
    let mut source = MemorySource::new(Bytes::from_slice(alloc, input)?, 7, Fails::never(alloc));
    let mut sink = MemorySink::new(alloc, 4_096, Fails::never(alloc));
    let mut clock = ListClock::new(List::new(Vec::from_slice(alloc, &MOMENTS)?));
    let status = run_agent(
        alloc,
        words.as_slice(),
        &mut source,
        &mut sink,
        &mut upstream,
        &mut clock,
    );
    Ok((
        status,
        Bytes::from_slice(alloc, sink.taken().as_slice())?,
        upstream.told().len(),
    ))
}

#[test]
fn answers_are_kept_for_300_seconds(rt: HostRuntime) -> Result<(), Fail> {
    let (input, output) = streams(rt.alloc())?;
    let (status, written, asked) = read(rt.alloc(), input.as_slice())?;
    let is_so = written.as_slice() == output.as_slice();
    assert_eq!(rt; (status, asked, is_so), (Status::Done, 13, true));
    Ok(())
}
