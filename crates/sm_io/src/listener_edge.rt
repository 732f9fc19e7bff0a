//! An edge over a listener of the system's, as of TCP.
ghost use Rattle.std.specs.Prelude.{◌≡◌, ◌≤◌, None};
ghost use Rattle.sm_base.specs.Faults.{Rose};
ghost use Rattle.sm_io.specs.Edge.{OnAcceptEnd, OnAcceptFailed, StaysUnlessAcceptFailed};
ghost use Rattle.sm_io.specs.ListenerEdge.{accept_faults};

use crate::edge::{Accepted, Edge};
use crate::stream_conn::StreamConn;
use std::io;
use std::io::{ErrorKind, Read, Write};
use std::net::{OpenListener, OpenStream};
use std::time::Duration;

/// How many seconds a read waits for a peer that sends nothing, as other servers do with connections that are kept.
const READ_SECONDS: u64 = 5;

/// How many seconds a write waits for a peer that takes nothing.
const WRITE_SECONDS: u64 = 30;

/// How often an accept is tried in all whose peer went away before it was its turn.
const TRIES: u32 = 1_000;

/// An edge that hands out what a listener accepts. It tells nothing, never answers that none is left, and drops what
/// comes back. A connection sends what is written at once, and gives up a read after 5 seconds and a write after 30.
#[derive(Drop)]
pub struct ListenerEdge<L> {
    listener: L,
    faults: u64,
}

impl<L> ListenerEdge<L> {
    /// The edge of this listener, without a fault so far.
    pub fn new(listener: L) -> ListenerEdge<L>
        ensures { accept_faults result ≡ 0 }
    {
        ListenerEdge {
            listener,
            faults: 0,
        }
    }
}

impl<L: OpenListener, N: Drop> Edge<N> for ListenerEdge<L>
where
    L::Stream: OpenStream + Read + Write,
{
    type C = StreamConn<L::Stream>;

    ghost left = { λ _. None };

    ghost handed = { λ _. None };

    ghost back = { λ _. None };

    ghost edge_faults = { λ e. accept_faults e };

    fn accept(&mut self) -> Accepted<StreamConn<L::Stream>>
        ensures end { OnAcceptEnd result ⊥ }
        ensures failed { OnAcceptFailed result (Rose (accept_faults self.old) (accept_faults self.new)) }
        ensures later { accept_faults self.old ≤ accept_faults self.new }
        ensures no_other { StaysUnlessAcceptFailed result (accept_faults self.old) (accept_faults self.new) }
    {
        match accept_some(&self.listener) {
            Ok(stream) => {
                limit(&stream);
                Accepted::Conn(StreamConn::new(stream))
            }
            Err(_) => {
                self.faults = self.faults.saturating_add(1);
                Accepted::Failed
            }
        }
    }

    fn done(&mut self, _conn: StreamConn<L::Stream>, _end: N)
        ensures faults { accept_faults self.new ≡ accept_faults self.old }
    {}

    ghost no_more = { λ _. tt };
}

/// Accepts once, and again where the peer had gone away or the accept was interrupted.
fn accept_some<L: OpenListener>(listener: &L) -> io::Result<L::Stream> {
    for _ in 1..TRIES {
        match listener.accept() {
            Ok((stream, _)) => return Ok(stream),
            Err(error) if has_gone(error.kind()) => {}
            Err(error) => return Err(error),
        }
    }
    let (stream, _) = listener.accept()?;
    Ok(stream)
}

/// Whether an accept failed for the sake of its peer or of a signal, and not of the listener.
fn has_gone(kind: ErrorKind) -> bool {
    matches!(
        kind,
        ErrorKind::ConnectionAborted | ErrorKind::ConnectionReset | ErrorKind::Interrupted
    )
}

/// Sets the limits of a connection. A stream that has none of these settings is served without them.
fn limit<S: OpenStream>(stream: &S) {
    let _ = stream.set_nodelay(true);
    let _ = stream.set_read_timeout(Some(Duration::from_secs(READ_SECONDS)));
    let _ = stream.set_write_timeout(Some(Duration::from_secs(WRITE_SECONDS)));
}
