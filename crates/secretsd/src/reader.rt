//! Mode agent: a caching reader at an address of its own.
use crate::connections::Connections;
use crate::event_loop::EventLoop;
use crate::reports::Reports;
use crate::serving::bind;
use crate::side::Side;
use crate::upstreams::SaidUpstream;
use sm_agent::Agent;
use sm_command_line::Settings;
use sm_io::{StreamSink, StreamSource, SystemClock};
use sm_model::NoMemory;
use sm_server::{Status, agent_of_words, answer_connection};
use std::alloc::Global;
use std::cell::RefCell;
use std::io::{Read, Write};
use std::net::TcpListener;
use std::sync::Wait;

/// Where a caching reader listens.
const ADDRESS: &str = "127.0.0.1:2773";

/// A caching reader, what it asks, and the clock that it reads.
#[derive(Drop)]
struct Reader<'a> {
    agent: Agent,
    upstream: SaidUpstream<'a>,
    clock: SystemClock<&'a HostRuntime>,
}

/// Answers requests for secrets from what was kept of the answers of a server, until a signal ends the program.
pub fn read_for_others<H: Wait>(
    rt: &HostRuntime,
    threads: &H,
    words: &[String],
    settings: &Settings,
) -> Status {
    match agent_of_words(rt.alloc(), words) {
        Ok(agent) => read_with(rt, threads, settings, agent),
        Err(status) => status,
    }
}

/// Answers requests with a caching reader.
fn read_with<H: Wait>(rt: &HostRuntime, threads: &H, settings: &Settings, agent: Agent) -> Status {
    let reports = Reports::new(rt);
    match SaidUpstream::new(rt, &reports, &settings.listen) {
        Ok(upstream) => {
            let clock = SystemClock::new(rt);
            let reader = Reader {
                agent,
                upstream,
                clock,
            };
            listen(rt, threads, settings, reader)
        }
        Err(NoMemory) => Status::Memory,
    }
}

/// Listens, and says so, and whom it asks.
fn listen<H: Wait>(rt: &HostRuntime, threads: &H, settings: &Settings, reader: Reader) -> Status {
    match bind(rt, ADDRESS) {
        Ok(listener) => {
            let server = settings.listen.as_str();
            let _ = eprintln!(rt;
                "secretsd: listening on {ADDRESS}, secrets from {server}, each kept for 300 seconds"
            );
            answer_all(rt, threads, &listener, reader)
        }
        Err(error) => {
            let _ = eprintln!(rt; "secretsd: can't listen on {ADDRESS}: {error}");
            Status::EdgeFault
        }
    }
}

/// Answers connections with an event loop, until no more can be accepted.
fn answer_all<H: Wait>(
    rt: &HostRuntime,
    threads: &H,
    listener: &TcpListener,
    reader: Reader,
) -> Status {
    let connections = Connections::new(rt, None, 1);
    match EventLoop::new(rt, threads, &connections, listener, false) {
        Ok(connections) => answer_visits(rt, threads, connections, reader),
        Err(error) => {
            let _ = eprintln!(rt; "secretsd: connections can't be polled: {error}");
            Status::EdgeFault
        }
    }
}

/// Answers the visits of an event loop. However one ends, the next one is answered.
fn answer_visits<H: Wait>(
    rt: &HostRuntime,
    threads: &H,
    connections: EventLoop<H>,
    reader: Reader,
) -> Status {
    let mut connections = connections;
    let mut reader = reader;
    for _ in threads.forever() {
        match connections.next_visit() {
            Ok(visit) => connections.end_visit(answer(rt.alloc(), visit, &mut reader)),
            Err(_) => return Status::EdgeFault,
        }
    }
    unreachable!()
}

/// Answers the requests of a stream, and gives it back.
fn answer<S: Read + Write + Drop>(alloc: Global, stream: S, reader: &mut Reader) -> S {
    let stream = RefCell::new(stream);
    let mut source = StreamSource::new(Side { stream: &stream });
    let mut sink = StreamSink::new(Side { stream: &stream });
    let _ = answer_connection(
        alloc,
        &mut reader.agent,
        &mut source,
        &mut sink,
        &mut reader.upstream,
        &mut reader.clock,
    );
    drop(source);
    drop(sink);
    stream.into_inner()
}
