//! Requests to a caching reader.
ghost use Rattle.std.specs.Prelude.{Option};
ghost use Rattle.std.specs.Result.{result_ok};
ghost use Rattle.sm_agent.specs.Runs.{Call};
ghost use Rattle.sm_agent.specs.Exchanges.{Came, Passes};

use crate::agent::Agent;
use crate::answer::Answer;
use crate::reply::{given_reply, refused_reply, request};
use crate::upstream::Upstream;
use sm_base::NoMemory;
use sm_io::Clock;
use std::alloc::Global;

/// The reply to a request, by its method and its path. A question reads the clock once, and asks the upstream where no
/// answer to it is kept. Without memory there is no reply, though a question may have been asked.
pub fn turn<U: Upstream, C: Clock>(
    alloc: Global,
    agent: &mut Agent,
    upstream: &mut U,
    clock: &mut C,
    method: &[u8],
    path: &[u8],
) -> Result<Answer, NoMemory>
    ensures { (call : Option Call) × Came method.now path.now call (result_ok result) agent.old agent.new
        × Passes call (U.told upstream.old) (U.told upstream.new) (C.readings clock.old) (C.readings clock.new)
        (U.faults upstream.old) (U.faults upstream.new) }
{
    match request(alloc, method, path) {
        Ok((question, fresh)) => {
            let now = clock.now();
            given_reply(alloc, agent.get(upstream, question, fresh, now))
        }
        Err(refused) => refused_reply(alloc, refused),
    }
}
