//! The top call of a caching reader, over one connection.
ghost use Rattle.std.specs.Prelude.{◌≡◌, ◌≤◌, map, string_bytes};
ghost use Rattle.sm_agent_server.specs.Streams.{around_by};
ghost use Rattle.sm_command_line.specs.Reading.{settings_of};
ghost use Rattle.sm_server.specs.Readers.{AgentRan, BuildsAgent, EndsReader, IsNewAgent, StreamRan, end_of_reading};

use crate::status::{Status, status_of};
use sm_agent::{Agent, CACHE_SIZE, TTL, Upstream};
use sm_agent_server::answer_stream;
use sm_base::NoMemory;
use sm_command_line::{Mode, WordsRefused, read_words};
use sm_io::{Clock, Sink, Source};
use std::alloc::Global;

/// Follows the words of a command line: answers the requests of the source one after the other, at most 1,000, with a
/// caching reader that keeps nothing yet. The reply to each is written before the next one is read. It is
/// `agent_of_words` and then `answer_connection`.
pub fn run_agent<Q: Source, K: Sink, U: Upstream, C: Clock>(
    alloc: Global,
    words: &[String],
    source: &mut Q,
    sink: &mut K,
    upstream: &mut U,
    clock: &mut C,
) -> Status
    ensures ran { AgentRan (settings_of (map string_bytes words.now)) result
        (around_by Q.Source K.Sink U.Upstream C.Clock source.old sink.old upstream.old clock.old)
        (around_by Q.Source K.Sink U.Upstream C.Clock source.new sink.new upstream.new clock.new) }
    ensures source_later { Q.source_faults source.old ≤ Q.source_faults source.new }
    ensures sink_later { K.sink_faults sink.old ≤ K.sink_faults sink.new }
    ensures upstream_later { U.faults upstream.old ≤ U.faults upstream.new }
{
    match agent_of_words(alloc, words) {
        Ok(agent) => {
            let mut agent = agent;
            answer_connection(alloc, &mut agent, source, sink, upstream, clock)
        }
        Err(status) => status,
    }
}

/// A caching reader that keeps nothing yet, by the words of a command line, or how a run ends that does not follow
/// them: the other modes are other top calls'.
pub fn agent_of_words(alloc: Global, words: &[String]) -> Result<Agent, Status>
    ensures { BuildsAgent result (settings_of (map string_bytes words.now)) }
{
    match end_of_words(alloc, words) {
        Some(status) => Err(status),
        None => new_agent(alloc),
    }
}

/// Answers the requests of the source with a caching reader, which may have answered those of others before.
pub fn answer_connection<Q: Source, K: Sink, U: Upstream, C: Clock>(
    alloc: Global,
    agent: &mut Agent,
    source: &mut Q,
    sink: &mut K,
    upstream: &mut U,
    clock: &mut C,
) -> Status
    ensures ran { StreamRan result agent.old agent.new
        (around_by Q.Source K.Sink U.Upstream C.Clock source.old sink.old upstream.old clock.old)
        (around_by Q.Source K.Sink U.Upstream C.Clock source.new sink.new upstream.new clock.new) }
    ensures source_later { Q.source_faults source.old ≤ Q.source_faults source.new }
    ensures sink_later { K.sink_faults sink.old ≤ K.sink_faults sink.new }
    ensures upstream_later { U.faults upstream.old ≤ U.faults upstream.new }
{
    status_of(answer_stream(alloc, agent, source, sink, upstream, clock))
}

/// How a reader ends that is not asked to read, and nothing where it is.
fn end_of_words(alloc: Global, words: &[String]) -> Option<Status>
    ensures { EndsReader result (settings_of (map string_bytes words.now)) }
{
    match read_words(alloc, words) {
        Ok(settings) => end_of_reading(settings.mode),
        Err(WordsRefused::Refused) => Some(Status::Words),
        Err(WordsRefused::Memory) => Some(Status::Memory),
    }
}

/// The other modes are another top call's.
fn end_of_reading(mode: Mode) -> Option<Status>
    ensures { result ≡ end_of_reading mode }
{
    match mode {
        Mode::Exec => Some(Status::Words),
        Mode::Serve => Some(Status::Words),
        Mode::Check => Some(Status::Words),
        Mode::Drill => Some(Status::Words),
        Mode::Agent => None,
        Mode::Ship => Some(Status::Words),
        Mode::Follow => Some(Status::Words),
    }
}

/// A reader that keeps nothing yet.
fn new_agent(alloc: Global) -> Result<Agent, Status>
    ensures { IsNewAgent result }
{
    match Agent::build(alloc, CACHE_SIZE, TTL) {
        Ok(agent) => Ok(agent),
        Err(NoMemory) => Err(Status::Memory),
    }
}
