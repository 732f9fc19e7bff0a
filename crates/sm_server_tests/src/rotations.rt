//! Workers of a server that go on beside each other: connections that are served, and rotators that hold their answers
//! while others are at the same account.
ghost use Rattle.std.specs.Prelude.{◌≡◌, All, IfOk, vec_len};
ghost use Rattle.sm_workers.specs.Workers.{IsFresh};

use crate::meeting::{Holding, Meeting, Part, Watched};
use crate::support::{
    MemoryWorker, connection, connection_worker, edge, late_rotation_worker, outcome, ran_over,
    rotation_worker, three,
};
use sm_io::MemoryConn;
use sm_memory_fixtures::fails::fails_at;
use sm_model::{Fails, Stage};
use sm_rotator::ScriptRotator;
use sm_server::Status;
use sm_workers::Task;
use std::alloc::Global;
use std::sync::Wait;
use std::test::Fail;
use std::thread::Threads;

type Over<'a> = MemoryWorker<Watched<'a>, Holding<'a>>;

const CREATE: &str = "CreateSecret";

const ROTATE: &str = "RotateSecret";

const FIRST: &str = r#"{"Name":"db/one","SecretString":"s3cret"}"#;

const ROTATE_FIRST: &str =
    r#"{"SecretId":"db/one","ClientRequestToken":"rotation-token-000000000000-yyyy"}"#;

const SECOND: &str = r#"{"Name":"db/two","SecretString":"s3cret"}"#;

const ROTATE_SECOND: &str =
    r#"{"SecretId":"db/two","ClientRequestToken":"rotation-token-000000000001-yyyy"}"#;

const ROTATE_DAILY: &str =
    "{\"SecretId\":\"db/one\",\"RotateImmediately\":false,\"RotationRules\":{\"AutomaticallyAfterDays\":1}}";

const READ: (&str, &str) = ("GetSecretValue", r#"{"SecretId":"db/one"}"#);

/// What came of three workers, each as `came` says it; how the server ends; and how many entries its account has then.
type Ran = ([(u64, bool); 3], (Status, u64));

/// One connection with these messages.
fn one(alloc: Global, messages: &[(&str, &str)]) -> Result<Vec<MemoryConn>, Fail> {
    let mut conns = Vec::new(alloc);
    conns.push(connection(alloc, messages)?)?;
    Ok(conns)
}

/// An edge with these connections, and its part in a meeting.
fn watched<'a>(
    rt: &'a HostRuntime,
    meeting: &'a Meeting,
    part: Part,
    conns: Vec<MemoryConn>,
) -> Watched<'a> {
    Watched {
        rt,
        meeting,
        part,
        edge: edge(rt.alloc(), conns),
    }
}

/// A rotator that holds its answers at a stage until the other of the meeting has come.
fn holding<'a>(rt: &'a HostRuntime, meeting: &'a Meeting, stage: Stage) -> Holding<'a> {
    Holding {
        rt,
        meeting,
        stage,
        script: ScriptRotator::new(rt.alloc(), Fails::never(rt.alloc())),
    }
}

/// How many connections came back to a connection worker, or how many steps a rotation worker's rotator was asked to
/// do, and whether all went well.
fn came<'a>(worker: &Over<'a>) -> (u64, bool) {
    match &worker.task {
        Task::Door(edge) => {
            let (count, well) = outcome(&edge.edge);
            (count as u64, well && !worker.failed)
        }
        Task::Turner(rotator) => {
            let calls = &rotator.script.calls;
            (calls.made, calls.faults == 0)
        }
    }
}

/// Runs three workers over a disk of which these calls fail.
fn ran<'a, H: Threads + Wait + Sync>(
    threads: &H,
    alloc: Global,
    mut workers: Vec<Over<'a>>,
    disk_fails: Fails,
) -> Result<Ran, Fail>
    requires fresh { All IsFresh workers.items }
    requires many { vec_len workers ≡ 3 }
{
    let ended = ran_over(threads, alloc, workers.as_mut_slice(), disk_fails)?;
    let all = [came(&workers[0]), came(&workers[1]), came(&workers[2])];
    Ok((all, ended))
}

/// A connection that makes a secret with a token of its own, of this letter and number.
fn maker(alloc: Global, letter: char, number: usize) -> Result<MemoryConn, Fail> {
    let body = format!(in alloc;
        "{{\"Name\":\"{letter}{number}\",\"SecretString\":\"s3cret\",\
          \"ClientRequestToken\":\"{letter}-{number}-11111111-1111-4111-8111-111111\"}}"
    )?;
    connection(alloc, &[(CREATE, body.as_str())])
}

/// Twenty connections that make secrets.
fn makers(alloc: Global, letter: char) -> Result<Vec<MemoryConn>, Fail> {
    let mut conns = Vec::new(alloc);
    for number in 0..20 {
        conns.push(maker(alloc, letter, number)?)?;
    }
    Ok(conns)
}

/// Two connection workers whose connections make twenty secrets each, and a rotation worker, which ends once both doors
/// are closed.
fn servers<'a>(rt: &'a HostRuntime, meeting: &'a Meeting) -> Result<Vec<Over<'a>>, Fail>
    ensures fresh { IfOk result (λ workers. All IsFresh workers.items) }
    ensures many { IfOk result (λ workers. vec_len workers ≡ 3) }
{
    let alloc = rt.alloc();
    let first = makers(alloc, 'a')?;
    let second = makers(alloc, 'b')?;
    three(
        alloc,
        connection_worker(alloc, watched(rt, meeting, Part::Apart, first)),
        connection_worker(alloc, watched(rt, meeting, Part::Apart, second)),
        rotation_worker(alloc, holding(rt, meeting, Stage::Create)),
    )
}

/// What comes of forty connections at two connection workers.
fn served<H: Threads + Wait + Sync>(rt: &HostRuntime, threads: &H) -> Result<Ran, Fail> {
    let meeting = Meeting::new();
    let workers = servers(rt, &meeting)?;
    ran(threads, rt.alloc(), workers, Fails::never(rt.alloc()))
}

#[test]
fn each_connection_is_served(rt: HostRuntime) -> Result<(), Fail> {
    let out = served(&rt, &rt)?;
    assert_eq!(rt;
        out,
        ([(20, true), (20, true), (0, true)], (Status::Done, 40))
    );
    Ok(())
}

/// A connection worker that makes and rotates a secret, one that reads it behind the first of a meeting, and a rotation
/// worker whose rotator is that first at testSecret.
fn testers<'a>(rt: &'a HostRuntime, meeting: &'a Meeting) -> Result<Vec<Over<'a>>, Fail>
    ensures fresh { IfOk result (λ workers. All IsFresh workers.items) }
    ensures many { IfOk result (λ workers. vec_len workers ≡ 3) }
{
    let alloc = rt.alloc();
    let rotates = one(alloc, &[(CREATE, FIRST), (ROTATE, ROTATE_FIRST)])?;
    let reads = one(alloc, &[READ])?;
    three(
        alloc,
        connection_worker(alloc, watched(rt, meeting, Part::Apart, rotates)),
        connection_worker(alloc, watched(rt, meeting, Part::Second, reads)),
        rotation_worker(alloc, holding(rt, meeting, Stage::Test)),
    )
}

/// A rotation whose rotator holds its answer at testSecret until a connection of another connection worker got the
/// value, which that connection worker hands out only once testSecret is asked.
fn read_while_tested<H: Threads + Wait + Sync>(rt: &HostRuntime, threads: &H) -> Result<Ran, Fail> {
    let meeting = Meeting::new();
    let workers = testers(rt, &meeting)?;
    ran(threads, rt.alloc(), workers, Fails::never(rt.alloc()))
}

#[test]
fn a_value_is_read_while_the_rotator_tests_another(rt: HostRuntime) -> Result<(), Fail> {
    let out = read_while_tested(&rt, &rt)?;
    assert_eq!(rt; out, ([(1, true), (1, true), (4, true)], (Status::Done, 6)));
    Ok(())
}

/// A connection worker that makes and rotates two secrets, and stays open until both steps were asked, and two rotation
/// workers whose rotators wait for each other at createSecret.
fn rotators<'a>(rt: &'a HostRuntime, meeting: &'a Meeting) -> Result<Vec<Over<'a>>, Fail>
    ensures fresh { IfOk result (λ workers. All IsFresh workers.items) }
    ensures many { IfOk result (λ workers. vec_len workers ≡ 3) }
{
    let alloc = rt.alloc();
    let messages = [
        (CREATE, FIRST),
        (CREATE, SECOND),
        (ROTATE, ROTATE_FIRST),
        (ROTATE, ROTATE_SECOND),
    ];
    let rotates = one(alloc, &messages)?;
    three(
        alloc,
        connection_worker(alloc, watched(rt, meeting, Part::Host, rotates)),
        rotation_worker(alloc, holding(rt, meeting, Stage::Create)),
        rotation_worker(alloc, holding(rt, meeting, Stage::Create)),
    )
}

/// Two rotations, of which each one's rotator holds its first answer until the first step of the other was asked. Which
/// rotation worker is asked the further steps is not said: both together count as the second.
fn both_at_their_first_step<H: Threads + Wait + Sync>(
    rt: &HostRuntime,
    threads: &H,
) -> Result<Ran, Fail> {
    let meeting = Meeting::new();
    let workers = rotators(rt, &meeting)?;
    let ([door, first, second], ended) = ran(
        threads,
        rt.alloc(),
        workers,
        Fails::never(rt.alloc()),
    )?;
    let both = (first.0.saturating_add(second.0), first.1 && second.1);
    Ok(([door, both, (0, true)], ended))
}

#[test]
fn two_secrets_are_rotated_at_once(rt: HostRuntime) -> Result<(), Fail> {
    let out = both_at_their_first_step(&rt, &rt)?;
    assert_eq!(rt;
        out,
        ([(1, true), (8, true), (0, true)], (Status::Done, 12))
    );
    Ok(())
}

/// The calls of the disk in which the start of the rotation is written, the first and the last: looking for a root
/// takes two calls, a new journal six, and each of the two entries before that six more.
const CALLS_OF_THE_START: [u64; 2] = [21, 26];

/// A connection worker that makes a secret and has it rotated each day, one that reads it behind the first of a
/// meeting, and a rotation worker of a day later, whose rotator is that first at setSecret. Until then the second door
/// is open, and the rotation worker goes on.
fn daily<'a>(rt: &'a HostRuntime, meeting: &'a Meeting) -> Result<Vec<Over<'a>>, Fail>
    ensures fresh { IfOk result (λ workers. All IsFresh workers.items) }
    ensures many { IfOk result (λ workers. vec_len workers ≡ 3) }
{
    let alloc = rt.alloc();
    let rotates = one(alloc, &[(CREATE, FIRST), (ROTATE, ROTATE_DAILY)])?;
    let reads = one(alloc, &[READ])?;
    three(
        alloc,
        connection_worker(alloc, watched(rt, meeting, Part::Apart, rotates)),
        connection_worker(alloc, watched(rt, meeting, Part::Second, reads)),
        late_rotation_worker(alloc, holding(rt, meeting, Stage::Set)),
    )
}

/// A due rotation whose start fails at this call of the disk.
fn started_behind_a_fault<H: Threads + Wait + Sync>(
    rt: &HostRuntime,
    threads: &H,
    call: u64,
) -> Result<Ran, Fail> {
    let meeting = Meeting::new();
    let disk_fails = fails_at(rt.alloc(), call, false)?;
    let workers = daily(rt, &meeting)?;
    ran(threads, rt.alloc(), workers, disk_fails)
}

#[test]
fn a_rotation_worker_goes_on_behind_a_fault_of_the_disk(rt: HostRuntime) -> Result<(), Fail> {
    for call in CALLS_OF_THE_START {
        let out = started_behind_a_fault(&rt, &rt, call)?;
        assert_eq!(rt;
            out,
            ([(1, true), (1, true), (4, true)], (Status::Done, 7)),
            "{call}"
        );
    }
    Ok(())
}
