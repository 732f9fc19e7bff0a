//! One exchange over a connection, in a limited time.
ghost use Rattle.std.specs.Prelude.{◌<◌, ◌≤◌, length, take, IfOk};
ghost use Rattle.std.specs.Io.KnownBytes.{Appends, Consumes};

use sm_base::Text;
use std::io::{Read, Write};
use std::net::{Net, OpenStream, TcpStream, ToSocketAddrs};
use std::time::{Clock, Duration, Instant};

/// How many seconds a question may take in all.
const SECONDS: u64 = 20;

/// Why there is no answer.
#[derive(Clone, Copy, Debug, PartialEq, Eq)]
pub(crate) enum Trouble {
    Failed,
    Memory,
}

/// What is left of a question's time.
fn time_left<C: Clock>(clock: &C, start: Instant) -> Result<Duration, Trouble> {
    match start.elapsed(clock) {
        Ok(spent) => Duration::from_secs(SECONDS)
            .checked_sub(spent)
            .ok_or(Trouble::Failed),
        Err(_) => Err(Trouble::Failed),
    }
}

/// A connection to the first of the server's addresses that takes one.
pub(crate) fn connect<R: Net + Clock>(
    system: &R,
    address: &Text,
    start: Instant,
) -> Result<R::Stream, Trouble> {
    let Ok(addresses) = address.as_str().to_socket_addrs(system) else {
        return Err(Trouble::Failed);
    };
    for address in addresses {
        let left = time_left(system, start)?;
        if let Ok(stream) = TcpStream::connect_timeout(system, &address, left) {
            return Ok(stream);
        }
    }
    Err(Trouble::Failed)
}

/// Sends all the bytes.
pub(crate) fn send<R: Clock, S: Write + OpenStream>(
    system: &R,
    stream: &mut S,
    bytes: &[u8],
    start: Instant,
) -> Result<(), Trouble>
    ensures { IfOk result (λ done. Appends (S.contents stream.old) (S.contents stream.new) bytes.now) }
{
    let mut sent = 0;
    while sent < bytes.len() {
        let left = time_left(system, start)?;
        if stream.set_write_timeout(Some(left)).is_err() {
            return Err(Trouble::Failed);
        }
        match stream.write(&bytes[sent..]) {
            Ok(0) => return Err(Trouble::Failed),
            Ok(count) => sent += count,
            Err(_) => return Err(Trouble::Failed),
        }
    }
    Ok(())
}

/// Reads once, and gives how many bytes came.
pub(crate) fn receive<R: Clock, S: Read + OpenStream>(
    system: &R,
    stream: &mut S,
    piece: &mut [u8],
    start: Instant,
) -> Result<usize, Trouble>
    ensures count { IfOk result (λ count. (0 < count) × (count ≤ length piece.new)) }
    ensures bytes { IfOk result (λ count. Consumes (S.remaining stream.old) (S.remaining stream.new)
        (take count piece.new)) }
{
    let left = time_left(system, start)?;
    if stream.set_read_timeout(Some(left)).is_err() {
        return Err(Trouble::Failed);
    }
    match stream.read(piece) {
        Ok(0) => Err(Trouble::Failed),
        Ok(count) => Ok(count),
        Err(_) => Err(Trouble::Failed),
    }
}
