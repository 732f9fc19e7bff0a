//! Bytes of replies that a socket has not taken yet.
use std::alloc::Global;
use std::io;
use std::io::{ErrorKind, Write};

/// Bytes that go to a socket once it takes them, in their order. Without bytes it holds no memory.
#[derive(Drop)]
pub struct Unsent {
    alloc: Global,
    bytes: Vec<u8>,
    /// So many bytes at the front were sent.
    sent: usize,
}

impl Unsent {
    /// Nothing.
    pub fn new(alloc: Global) -> Unsent {
        Unsent {
            alloc,
            bytes: Vec::new(alloc),
            sent: 0,
        }
    }

    /// How many bytes are still to be sent.
    pub fn len(&self) -> usize {
        self.bytes.len().saturating_sub(self.sent)
    }

    /// How many bytes are held, with those that were sent before the last that is still to be sent.
    pub fn held(&self) -> usize {
        self.bytes.len()
    }

    /// Whether all was sent.
    pub fn is_empty(&self) -> bool {
        self.len() == 0
    }

    /// Adds bytes. Where there is no memory for all of them, none is added.
    pub fn push(&mut self, piece: &[u8]) -> io::Result<()> {
        self.bytes.extend_from_slice(piece)?;
        Ok(())
    }

    /// Sends what the socket takes now, save so many bytes at the end.
    pub fn send<W: Write>(&mut self, socket: &mut W, kept: usize) -> io::Result<()> {
        let end = self.bytes.len().saturating_sub(kept);
        for _ in 0..end {
            if self.sent >= end {
                break;
            }
            match write_now(socket, &self.bytes.as_slice()[self.sent..end])? {
                0 => return Ok(()),
                count => self.sent = self.sent.saturating_add(count),
            }
        }
        if self.is_empty() {
            self.bytes = Vec::new(self.alloc);
            self.sent = 0;
        }
        Ok(())
    }
}

/// Writes once what a socket takes without waiting: 0 bytes where it takes none now.
pub fn write_now<W: Write>(socket: &mut W, piece: &[u8]) -> io::Result<usize> {
    match socket.write(piece) {
        Ok(0) => Err(io::Error::from(ErrorKind::WriteZero)),
        Ok(count) => Ok(count.min(piece.len())),
        Err(error) if is_later(&error) => Ok(0),
        Err(error) => Err(error),
    }
}

/// Whether a call failed only for now: the socket would have waited, or a signal came.
pub fn is_later(error: &io::Error) -> bool {
    matches!(error.kind(), ErrorKind::WouldBlock | ErrorKind::Interrupted)
}
