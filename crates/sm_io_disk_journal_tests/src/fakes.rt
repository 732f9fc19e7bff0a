//! A system that fails.
use std::io::{Error, ErrorKind, Read, Write};
use std::net::{Ipv4Addr, OpenListener, OpenStream, SocketAddr, SocketAddrV4};
use std::random::RandomSource;
use std::sync::atomic::{AtomicU64, Ordering};
use std::time::Duration;
use std::{io, time};

/// A reader that is interrupted, gives three bytes, fails, and is at its end.
#[derive(Drop)]
pub struct FlakyReader {
    pub calls: u8,
}

impl Read for FlakyReader {
    fn read(&mut self, buf: &mut [u8]) -> io::Result<usize> {
        self.calls = self.calls.saturating_add(1);
        match self.calls {
            1 => Err(Error::from(ErrorKind::Interrupted)),
            2 => {
                let count = buf.len().min(3);
                buf[..count].copy_from_slice(&b"abc"[..count]);
                Ok(count)
            }
            3 => Err(Error::from(ErrorKind::Other)),
            _ => Ok(0),
        }
    }
}

/// A writer that is interrupted, takes two bytes, takes nothing, fails, can't be flushed, and takes all.
#[derive(Drop)]
pub struct FlakyWriter {
    pub calls: u8,
}

impl Write for FlakyWriter {
    fn write(&mut self, buf: &[u8]) -> io::Result<usize> {
        self.calls = self.calls.saturating_add(1);
        match self.calls {
            1 => Err(Error::from(ErrorKind::Interrupted)),
            2 => Ok(buf.len().min(2)),
            3 => Ok(0),
            4 => Err(Error::from(ErrorKind::Other)),
            _ => Ok(buf.len()),
        }
    }

    fn flush(&mut self) -> io::Result<()> {
        if self.calls == 5 {
            return Err(Error::from(ErrorKind::Other));
        }
        Ok(())
    }
}

/// A random source that fails so often, and then fills each buffer with 7s.
#[derive(Drop)]
pub struct Sevens {
    pub calls: AtomicU64,
    pub failing: u64,
}

impl RandomSource for Sevens {
    fn fill_bytes(&self, buf: &mut [u8]) -> io::Result<()> {
        if self.calls.fetch_add(1, Ordering::SeqCst) < self.failing {
            return Err(Error::from(ErrorKind::Other));
        }
        buf.fill(7);
        Ok(())
    }
}

/// A system whose clock reads so many seconds, or fails.
#[derive(Drop)]
pub struct SetClock {
    pub seconds: Option<u64>,
}

impl time::Clock for SetClock {
    fn monotonic(&self) -> io::Result<Duration> {
        Ok(Duration::ZERO)
    }

    fn since_1970(&self) -> io::Result<Duration> {
        match self.seconds {
            Some(seconds) => Ok(Duration::from_secs(seconds)),
            None => Err(Error::from(ErrorKind::Other)),
        }
    }
}

/// A stream in both directions: the two flaky ones side by side.
#[derive(Drop)]
pub struct FlakyStream {
    reader: FlakyReader,
    writer: FlakyWriter,
}

/// It has no settings.
impl OpenStream for FlakyStream {}

impl Read for FlakyStream {
    fn read(&mut self, buf: &mut [u8]) -> io::Result<usize> {
        self.reader.read(buf)
    }
}

impl Write for FlakyStream {
    fn write(&mut self, buf: &[u8]) -> io::Result<usize> {
        self.writer.write(buf)
    }

    fn flush(&mut self) -> io::Result<()> {
        self.writer.flush()
    }
}

/// A listener whose first accept fails, and which then accepts flaky streams.
#[derive(Drop)]
pub struct FlakyListener {
    pub calls: AtomicU64,
}

impl OpenListener for FlakyListener {
    type Stream = FlakyStream;

    fn accept(&self) -> io::Result<(FlakyStream, SocketAddr)> {
        if self.calls.fetch_add(1, Ordering::SeqCst) == 0 {
            return Err(Error::from(ErrorKind::Other));
        }
        let stream = FlakyStream {
            reader: FlakyReader { calls: 0 },
            writer: FlakyWriter { calls: 0 },
        };
        let addr = SocketAddrV4::new(Ipv4Addr::LOCALHOST, 80);
        Ok((stream, SocketAddr::V4(addr)))
    }
}
