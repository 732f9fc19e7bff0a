//! The network and the clock of a link to a rotator, which note what the peer did.
ghost use Rattle.std.specs.Prelude.{◌≤◌, IfOk, length};
ghost use Rattle.std.specs.Io.{ReadsAtMost, WritesAtMost};

use crate::peer_outcome::{LastOutcome, PeerOutcome};
use std::io;
use std::io::{ErrorKind, Read, Write};
use std::net::{Net, OpenListener, OpenStream, SocketAddr, TcpStream};
use std::os::fd::{AsRawFd, RawFd};
use std::sync::Arc;
use std::time::{Clock, Duration};

/// How often a call is tried that signals interrupt.
const TRIES: u32 = 1_000;

/// The network and the clock of a link. A peer's name may have several addresses: each that is tried has an equal
/// share of the time that is left, so that one that doesn't answer leaves time for the others.
#[derive(Drop)]
pub struct PeerNet<'a> {
    pub rt: &'a HostRuntime,
    pub last_outcome: Arc<LastOutcome>,
}

impl<'a> Clock for PeerNet<'a> {
    fn monotonic(&self) -> io::Result<Duration> {
        self.rt.monotonic()
    }

    fn since_1970(&self) -> io::Result<Duration> {
        self.rt.since_1970()
    }
}

impl<'a> Net for PeerNet<'a> {
    type Stream = PeerStream;

    type Listener = NoListener;

    fn bind(&self, _addr: SocketAddr) -> io::Result<NoListener> {
        Err(io::Error::from(ErrorKind::Unsupported))
    }

    fn connect(&self, _addr: SocketAddr) -> io::Result<PeerStream> {
        Err(io::Error::from(ErrorKind::Unsupported))
    }

    fn connect_timeout(&self, addr: SocketAddr, timeout: Duration) -> io::Result<PeerStream> {
        let share = timeout
            .checked_div(self.last_outcome.next_share())
            .unwrap_or(timeout);
        let last_outcome = Arc::clone(&self.last_outcome)?;
        match TcpStream::connect_timeout(self.rt, &addr, share) {
            Ok(stream) => {
                last_outcome.note(PeerOutcome::NotSaid);
                Ok(PeerStream {
                    stream,
                    last_outcome,
                })
            }
            Err(error) => {
                last_outcome.note_error(PeerOutcome::NotReached, &error);
                Err(error)
            }
        }
    }

    fn lookup_host(&self, host: &str, port: u16, found: &mut [SocketAddr]) -> io::Result<usize> {
        let looked = self.rt.lookup_host(host, port, found);
        match &looked {
            Ok(count) => self
                .last_outcome
                .expect(u32::try_from(*count).unwrap_or(u32::MAX)),
            Err(error) => self.last_outcome.note_error(PeerOutcome::NotFound, error),
        }
        looked
    }
}

/// A connection to a peer.
#[derive(Drop)]
pub struct PeerStream {
    stream: TcpStream,
    last_outcome: Arc<LastOutcome>,
}

impl PeerStream {
    /// Reads once, and again where a signal interrupted that.
    fn read_some(&mut self, buf: &mut [u8]) -> io::Result<usize>
        ensures { ReadsAtMost result buf.new }
    {
        for _ in 1..TRIES {
            match self.stream.read(buf) {
                Err(error) if error.kind() == ErrorKind::Interrupted => {}
                ended => return ended,
            }
        }
        self.stream.read(buf)
    }

    /// Writes once, and again where a signal interrupted that.
    fn write_some(&mut self, piece: &[u8]) -> io::Result<usize>
        ensures { WritesAtMost result piece.now }
    {
        for _ in 1..TRIES {
            match self.stream.write(piece) {
                Err(error) if error.kind() == ErrorKind::Interrupted => {}
                ended => return ended,
            }
        }
        self.stream.write(piece)
    }
}

impl Read for PeerStream {
    fn read(&mut self, buf: &mut [u8]) -> io::Result<usize> {
        let answer = self.read_some(buf);
        match &answer {
            Ok(0) => self.last_outcome.note(PeerOutcome::Closed),
            Ok(_) => self.last_outcome.note(PeerOutcome::Said),
            Err(error) => self.last_outcome.note_error(PeerOutcome::NotSaid, error),
        }
        answer
    }
}

impl Write for PeerStream {
    fn write(&mut self, piece: &[u8]) -> io::Result<usize> {
        let answer = self.write_some(piece);
        if let Err(error) = &answer {
            self.last_outcome.note_error(PeerOutcome::NotTaken, error);
        }
        answer
    }

    /// Nothing is kept back.
    fn flush(&mut self) -> io::Result<()> {
        Ok(())
    }
}

impl OpenStream for PeerStream {
    fn set_read_timeout(&self, limit: Option<Duration>) -> io::Result<()> {
        self.stream.set_read_timeout(limit)
    }

    fn set_write_timeout(&self, limit: Option<Duration>) -> io::Result<()> {
        self.stream.set_write_timeout(limit)
    }
}

impl AsRawFd for PeerStream {
    fn as_raw_fd(&self) -> RawFd {
        self.stream.as_raw_fd()
    }
}

/// A link listens nowhere.
#[derive(Drop)]
pub struct NoListener;

impl OpenListener for NoListener {
    type Stream = PeerStream;

    fn accept(&self) -> io::Result<(PeerStream, SocketAddr)> {
        Err(io::Error::from(ErrorKind::Unsupported))
    }
}

impl AsRawFd for NoListener {
    fn as_raw_fd(&self) -> RawFd {
        -1
    }
}
