//! A rotator behind a TCP address: the trusted edge. What the peer answers is nobody's theorem.
ghost use Rattle.std.specs.Prelude.{◌≡◌, ◌<◌, ◌≤◌, length, false, true, refl, IfOk, None, vec_len};
ghost use Rattle.sm_base.specs.Faults.{Rose};
ghost use Rattle.sm_rotator.specs.Asked.{IfAnswered, OnFailed};
ghost use Rattle.sm_rotator.specs.Absent.{is_failed};
ghost use Rattle.sm_rotator.specs.Link.{link_faults};
ghost use Rattle.sm_rotator.specs.Told.{TellsAsked};

use crate::line::{answer_in, line_of};
use crate::rotator::{Asked, Rotator};
use crate::work::Work;
use sm_model::{Answer, NoMemory, Text};
use std::alloc::Global;
use std::io::{Read, Write};
use std::net::{Net, OpenStream, TcpStream, ToSocketAddrs};
use std::time::{Clock, Duration, Instant};

/// How many seconds a step may take in all.
pub const STEP_SECONDS: u64 = 20;

/// The greatest length of a line that is read.
const LINE_LIMIT: usize = 524_288;

/// How many bytes are read at once.
const PIECE: usize = 4_096;

/// Why there is no answer.
#[derive(Clone, Copy, Debug, PartialEq, Eq)]
enum Trouble {
    Failed,
    Memory,
}

/// A rotator that a peer plays: a connection for each step, one line out and one line in.
#[derive(Drop)]
pub struct LinkRotator<R> {
    alloc: Global,
    system: R,
    address: Text,
    faults: u64,
}

impl<R> LinkRotator<R> {
    /// The rotator at a host and port, by the system's network and clock. It takes no memory.
    pub fn new(alloc: Global, system: R, address: Text) -> LinkRotator<R>
        ensures { link_faults result ≡ 0 }
    {
        LinkRotator {
            alloc,
            system,
            address,
            faults: 0,
        }
    }
}

/// What is left of a step's time.
fn time_left<C: Clock>(clock: &C, start: Instant) -> Result<Duration, Trouble> {
    match start.elapsed(clock) {
        Ok(spent) => Duration::from_secs(STEP_SECONDS)
            .checked_sub(spent)
            .ok_or(Trouble::Failed),
        Err(_) => Err(Trouble::Failed),
    }
}

/// A connection to the first of the peer's addresses that takes one.
fn connect<R: Net + Clock>(
    system: &R,
    address: &Text,
    start: Instant,
) -> Result<R::Stream, Trouble> {
    let Ok(addresses) = address.as_str().to_socket_addrs(system) else {
        return Err(Trouble::Failed);
    };
    for address in addresses {
        let left = time_left(system, start)?;
        if let Ok(stream) = TcpStream::connect_timeout(system, &address, left) {
            return Ok(stream);
        }
    }
    Err(Trouble::Failed)
}

/// Sends all the bytes.
fn send<R: Clock, S: Write + OpenStream>(
    system: &R,
    stream: &mut S,
    bytes: &[u8],
    start: Instant,
) -> Result<(), Trouble> {
    let mut sent = 0;
    while sent < bytes.len() {
        let left = time_left(system, start)?;
        if stream.set_write_timeout(Some(left)).is_err() {
            return Err(Trouble::Failed);
        }
        match stream.write(&bytes[sent..]) {
            Ok(0) => return Err(Trouble::Failed),
            Ok(count) => sent += count,
            Err(_) => return Err(Trouble::Failed),
        }
    }
    Ok(())
}

/// Reads once, and gives how many bytes came.
fn receive<R: Clock, S: Read + OpenStream>(
    system: &R,
    stream: &mut S,
    piece: &mut [u8],
    start: Instant,
) -> Result<usize, Trouble>
    ensures { IfOk result (λ count. (0 < count) × (count ≤ length piece.new)) }
{
    let left = time_left(system, start)?;
    if stream.set_read_timeout(Some(left)).is_err() {
        return Err(Trouble::Failed);
    }
    match stream.read(piece) {
        Ok(0) => Err(Trouble::Failed),
        Ok(count) => Ok(count),
        Err(_) => Err(Trouble::Failed),
    }
}

/// The line that the peer writes, without its end.
fn read_line<R: Clock, S: Read + OpenStream>(
    alloc: Global,
    system: &R,
    stream: &mut S,
    start: Instant,
) -> Result<Vec<u8>, Trouble>
    ensures { IfOk result (λ line. vec_len line ≤ LINE_LIMIT) }
{
    let mut line = Vec::new(alloc);
    let mut piece = [0; PIECE];
    while line.len() <= LINE_LIMIT {
        let count = receive(system, stream, &mut piece, start)?;
        let came = &piece[..count];
        let end = came.iter().position(|byte| *byte == b'\n');
        let part = &came[..end.unwrap_or(count)];
        if line.extend_from_slice(part).is_err() {
            return Err(Trouble::Memory);
        }
        if end.is_some() && line.len() <= LINE_LIMIT {
            return Ok(line);
        }
        if end.is_some() {
            return Err(Trouble::Failed);
        }
    }
    Err(Trouble::Failed)
}

/// Does the step over a connection of its own.
fn exchange<R: Net + Clock>(
    alloc: Global,
    system: &R,
    address: &Text,
    work: &Work,
) -> Result<Answer, Trouble>
    ensures { IfOk result (λ answer. is_failed answer ≡ false) }
{
    let Ok(start) = Instant::now(system) else {
        return Err(Trouble::Failed);
    };
    let Ok(line) = line_of(alloc, work) else {
        return Err(Trouble::Memory);
    };
    let mut stream = connect(system, address, start)?;
    send(system, &mut stream, line.as_slice(), start)?;
    let reply = read_line(alloc, system, &mut stream, start)?;
    match answer_in(alloc, reply.as_slice()) {
        Ok(Some(answer)) => Ok(answer),
        Ok(None) => Err(Trouble::Failed),
        Err(NoMemory) => Err(Trouble::Memory),
    }
}

impl<R: Net + Clock> Rotator for LinkRotator<R> {
    ghost replies = { λ arn at current pending answer. true };

    ghost faults = { λ rotator. link_faults rotator };

    ghost told = { λ rotator. None };

    fn ask(&mut self, work: &Work) -> Asked
        ensures allowed { IfAnswered result (λ answer. true ≡ true) }
        ensures failed { OnFailed result (Rose (link_faults self.old) (link_faults self.new)) }
        ensures later { link_faults self.old ≤ link_faults self.new }
        ensures told { TellsAsked work.now result None None }
    {
        match exchange(self.alloc, &self.system, &self.address, work) {
            Ok(answer) => Asked::Answered(answer),
            Err(Trouble::Memory) => Asked::Memory,
            Err(Trouble::Failed) => {
                self.faults = self.faults.saturating_add(1);
                Asked::Answered(Answer::Failed)
            }
        }
    }

    ghost may_fail = { λ arn at current pending. refl };
}
