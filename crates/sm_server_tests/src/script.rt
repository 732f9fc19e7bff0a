//! Upstreams of given replies.
ghost use Rattle.std.specs.Prelude.{◌||◌, ◌==◌, true, ◌≡◌};
ghost use Rattle.sm_agent.specs.Upstreams.{is_status};

use sm_agent::ScriptUpstream;
use sm_base::{Bytes, Fails, List, NoMemory};
use std::alloc::Global;

/// A reply: its body, with status 200 or 400.
#[derive(Clone, Copy)]
pub enum Reply {
    Fine(&'static str),
    Bad(&'static str),
}

impl Reply {
    fn status(self) -> u16
        ensures { is_status result ≡ true }
    {
        match self {
            Reply::Fine(_) => 200,
            Reply::Bad(_) => 400,
        }
    }

    fn body(self) -> &'static str {
        match self {
            Reply::Fine(body) => body,
            Reply::Bad(body) => body,
        }
    }
}

/// An upstream that gives these replies, and fails at these calls.
pub fn script(alloc: Global, replies: &[Reply], fails: &[u64]) -> Result<ScriptUpstream, NoMemory> {
    let mut list = List::empty(alloc);
    for reply in replies {
        let body = Bytes::from_slice(alloc, reply.body().as_bytes())?;
        list.push((reply.status(), body))?;
    }
    let fails = Fails {
        calls: List::new(Vec::from_slice(alloc, fails)?),
        from: None,
    };
    Ok(ScriptUpstream::new(alloc, list, fails))
}
