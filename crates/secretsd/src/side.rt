//! The two sides of one stream, for those who read and write through things of their own.
use std::cell::RefCell;
use std::io;
use std::io::{ErrorKind, Read, Write};

/// A side of a stream, which is read or written through it. Its sides are used in turn and never at once.
#[derive(Drop)]
pub struct Side<'a, S> {
    pub stream: &'a RefCell<S>,
}

impl<'a, S: Read> Read for Side<'a, S> {
    fn read(&mut self, buf: &mut [u8]) -> io::Result<usize> {
        match self.stream.try_borrow_mut() {
            Ok(mut stream) => stream.read(buf),
            Err(_) => Err(io::Error::from(ErrorKind::ResourceBusy)),
        }
    }
}

impl<'a, S: Write> Write for Side<'a, S> {
    fn write(&mut self, piece: &[u8]) -> io::Result<usize> {
        match self.stream.try_borrow_mut() {
            Ok(mut stream) => stream.write(piece),
            Err(_) => Err(io::Error::from(ErrorKind::ResourceBusy)),
        }
    }

    fn flush(&mut self) -> io::Result<()> {
        match self.stream.try_borrow_mut() {
            Ok(mut stream) => stream.flush(),
            Err(_) => Err(io::Error::from(ErrorKind::ResourceBusy)),
        }
    }
}
