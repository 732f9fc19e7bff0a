//! Laws of a caching reader.
ghost use Rattle.sm_agent.specs.Runs.{KeptWasAsked};
ghost use Rattle.sm_agent.specs.Exchanges.{RepliesAreGiven};

/// In any run of calls since a reader was built, a kept answer is one that the upstream gave to that very question with
/// status 200, in an earlier call of the run, less than the time to live before.
pub fn kept_was_asked()
    ensures { KeptWasAsked }
{}

/// In any run of requests since a reader was built, each reply to a question is a kept answer that lives, the answer
/// that the upstream gave to that very question in this call, or the reply for a fault of the upstream in this call.
pub fn replies_are_given()
    ensures { RepliesAreGiven }
{}
