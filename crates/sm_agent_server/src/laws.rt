//! Laws of streams of requests to a caching reader.
ghost use Rattle.sm_agent_server.specs.Connections.{EachReplyIsGiven, StreamsAreOneRun};

/// Streams of requests to one reader, one after the other, are one run of requests, of which the next law speaks.
pub fn streams_are_one_run()
    ensures { StreamsAreOneRun }
{}

/// In any run of requests since a reader was built, also over several streams, each reply to a question is a kept
/// answer that lives, the answer that the upstream gave to that very question in this call, or the reply for a fault of
/// the upstream in this call.
pub fn every_reply_is_given()
    ensures { EachReplyIsGiven }
{}
