//! A server behind a TCP address: the trusted edge. What the peer answers is nobody's theorem.
ghost use Rattle.std.specs.Prelude.{◌≡◌, ◌≤◌, ◌<◌, ◌++◌, ℕ, List, length, IsTrue, IfOk, None, vec_len};
ghost use Rattle.std.specs.Io.KnownBytes.{Consumes};
ghost use Rattle.sm_base.specs.Faults.{Rose};
ghost use Rattle.sm_agent.specs.Link.{link_faults};
ghost use Rattle.sm_agent.specs.Received.{ReadsReply, WasRead};
ghost use Rattle.sm_agent.specs.Upstreams.{is_status, IfGot, OnFailed, StaysUnlessFailed, told_after};

use crate::asking::asking;
use crate::question::Question;
use crate::received::{BODY_LIMIT, HEAD_LIMIT, Received, reply_in};
use crate::upstream::{Upped, Upstream};
use crate::wire::{Trouble, connect, receive, send};
use sm_base::{Bytes, NoMemory, Text};
use std::alloc::Global;
use std::io::Read;
use std::net::{Net, OpenStream};
use std::time::{Clock, Instant};

/// The greatest length of a reply.
const REPLY_LIMIT: usize = HEAD_LIMIT + BODY_LIMIT;

/// How many bytes are read at once.
const PIECE: usize = 4_096;

/// A server that is asked by GetSecretValue, without credentials: a connection for each question.
#[derive(Drop)]
pub struct LinkUpstream<R> {
    alloc: Global,
    system: R,
    address: Text,
    faults: u64,
}

impl<R> LinkUpstream<R> {
    /// The server at a host and port, by the system's network and clock. It takes no memory.
    pub fn new(alloc: Global, system: R, address: Text) -> LinkUpstream<R>
        ensures { link_faults result ≡ 0 }
    {
        LinkUpstream {
            alloc,
            system,
            address,
            faults: 0,
        }
    }
}

/// Reads once, and adds what came to the bytes.
fn gather<R: Clock, S: Read + OpenStream>(
    system: &R,
    stream: &mut S,
    bytes: &mut Vec<u8>,
    start: Instant,
) -> Result<(), Trouble>
    ensures { IfOk result (λ done. (came : List ℕ) × (0 < length came)
        × Consumes (S.remaining stream.old) (S.remaining stream.new) came
        × (bytes.new.items ≡ bytes.old.items ++ came)) }
{
    let mut piece = [0; PIECE];
    let count = receive(system, stream, &mut piece, start)?;
    match bytes.extend_from_slice(&piece[..count]) {
        Ok(()) => Ok(()),
        Err(_) => Err(Trouble::Memory),
    }
}

/// The reply that the server writes.
fn read_reply<R: Clock, S: Read + OpenStream>(
    alloc: Global,
    system: &R,
    stream: &mut S,
    start: Instant,
) -> Result<(u16, Bytes), Trouble>
    ensures { IfOk result (λ reply. ReadsReply (S.remaining stream.old) (S.remaining stream.new) reply.0 reply.1) }
{
    let mut bytes = Vec::new(alloc);
    while bytes.len() <= REPLY_LIMIT {
        gather(system, stream, &mut bytes, start)?;
        match reply_in(bytes.as_slice()) {
            Received::Whole(status, from, to) => {
                let body = copied(alloc, &bytes.as_slice()[from..to])?;
                return Ok((status, body));
            }
            Received::Partial => {}
            Received::Bad => return Err(Trouble::Failed),
        }
    }
    Err(Trouble::Failed)
}

/// A copy of a body.
fn copied(alloc: Global, body: &[u8]) -> Result<Bytes, Trouble>
    ensures { IfOk result (λ copy. copy ≡ body.now) }
{
    match Bytes::from_slice(alloc, body) {
        Ok(body) => Ok(body),
        Err(NoMemory) => Err(Trouble::Memory),
    }
}

/// Asks over a connection of its own.
fn exchange<R: Net + Clock>(
    alloc: Global,
    system: &R,
    address: &Text,
    question: &Question,
) -> Result<(u16, Bytes), Trouble>
    ensures { IfOk result (λ reply. WasRead reply.0 reply.1) }
{
    let Ok(start) = Instant::now(system) else {
        return Err(Trouble::Failed);
    };
    let Ok(message) = asking(alloc, address.as_str(), question) else {
        return Err(Trouble::Memory);
    };
    let mut stream = connect(system, address, start)?;
    send(system, &mut stream, message.as_bytes(), start)?;
    read_reply(alloc, system, &mut stream, start)
}

impl<R: Net + Clock> Upstream for LinkUpstream<R> {
    ghost told = { λ upstream. None };

    ghost faults = { λ upstream. link_faults upstream };

    fn ask(&mut self, question: &Question) -> Upped
        ensures status { IfGot result (λ status body. IsTrue (is_status status)) }
        ensures read { IfGot result WasRead }
        ensures failed { OnFailed result (Rose (link_faults self.old) (link_faults self.new)) }
        ensures later { link_faults self.old ≤ link_faults self.new }
        ensures no_other { StaysUnlessFailed result (link_faults self.old) (link_faults self.new) }
        ensures told { None ≡ told_after question.now result None }
    {
        match exchange(self.alloc, &self.system, &self.address, question) {
            Ok((status, body)) => Upped::Got(status, body),
            Err(Trouble::Memory) => Upped::Memory,
            Err(Trouble::Failed) => {
                self.faults = self.faults.saturating_add(1);
                Upped::Failed
            }
        }
    }
}
