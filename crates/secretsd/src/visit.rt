//! A connection while its messages are answered.
ghost use Rattle.std.specs.Prelude.{◌≡◌, ◌<◌, ◌≤◌, length, None};
ghost use Rattle.sm_base.specs.Faults.{Rose};
ghost use Rattle.sm_io.specs.Sink.{IfPut, OnPutFailed, Puts, StaysUnlessPutFailed};
ghost use Rattle.sm_io.specs.Source.{IfGot, OnEnd, OnTakeFailed, StaysUnlessTakeFailed, Takes};
ghost use Rattle.std.specs.Io.KnownBytes.{IsAtEnd};

use crate::client::Client;
use sm_io::{Conn, Gave, Sink, Source, Took};
use sm_visits::HandedOut;
use std::io;
use std::io::{Read, Write};

/// A connection that has whole messages, from its event loop to a worker and back. It gives whole messages and then the
/// end, and takes each reply whole: while messages are answered a worker never waits for its client. It tells no
/// content.
#[derive(Drop)]
pub struct Visit<'a> {
    /// The connection, with its place in the event loop.
    pub handed: HandedOut<Box<Client<'a>>>,
    read_faults: u64,
    write_faults: u64,
}

impl<'a> Visit<'a> {
    /// A visit of a connection that was handed out.
    pub fn new(handed: HandedOut<Box<Client<'a>>>) -> Visit<'a> {
        Visit {
            handed,
            read_faults: 0,
            write_faults: 0,
        }
    }

    /// Whether the socket failed.
    pub fn has_failed(&self) -> bool {
        self.read_faults > 0 || self.write_faults > 0
    }
}

impl<'a> Read for Visit<'a> {
    fn read(&mut self, buf: &mut [u8]) -> io::Result<usize> {
        let answer = self.handed.connection.give(buf);
        if answer.is_err() {
            self.read_faults = self.read_faults.saturating_add(1);
        }
        Ok(answer?.min(buf.len()))
    }
}

impl<'a> Write for Visit<'a> {
    fn write(&mut self, piece: &[u8]) -> io::Result<usize> {
        let answer = self.handed.connection.reply(piece);
        if answer.is_err() {
            self.write_faults = self.write_faults.saturating_add(1);
        }
        answer?;
        Ok(piece.len())
    }

    /// Nothing is kept back here.
    fn flush(&mut self) -> io::Result<()> {
        Ok(())
    }
}

impl<'a> Source for Visit<'a> {
    ghost left = { λ _. None };

    ghost source_faults = { λ v. v.read_faults };

    ghost beside_source = { λ v. (None, v.write_faults) };

    fn take(&mut self, buf: &mut [u8]) -> Took
        ensures within { IfGot result (λ n. n ≤ length buf.old) }
        ensures some { IfGot result (λ n. 0 < length buf.old → 0 < n) }
        ensures bytes { Takes result buf.new None None }
        ensures end { OnEnd result (IsAtEnd None) }
        ensures failed { OnTakeFailed result (Rose self.old.read_faults self.new.read_faults) }
        ensures later { self.old.read_faults ≤ self.new.read_faults }
        ensures no_other { StaysUnlessTakeFailed result self.old.read_faults self.new.read_faults }
        ensures beside { self.new.write_faults ≡ self.old.write_faults }
    {
        if buf.is_empty() {
            return Took::Got(0);
        }
        match self.handed.connection.give(buf) {
            Ok(0) => Took::End,
            Ok(count) => Took::Got(count.min(buf.len())),
            Err(_) => {
                self.read_faults = self.read_faults.saturating_add(1);
                Took::Failed
            }
        }
    }
}

impl<'a> Sink for Visit<'a> {
    ghost taken = { λ _. None };

    ghost sink_faults = { λ v. v.write_faults };

    ghost beside_sink = { λ v. (None, v.read_faults) };

    fn put(&mut self, piece: &[u8]) -> Gave
        ensures within { IfPut result (λ n. n ≤ length piece.now) }
        ensures some { IfPut result (λ n. 0 < length piece.now → 0 < n) }
        ensures bytes { Puts result piece.now None None }
        ensures failed { OnPutFailed result (Rose self.old.write_faults self.new.write_faults) }
        ensures later { self.old.write_faults ≤ self.new.write_faults }
        ensures no_other { StaysUnlessPutFailed result self.old.write_faults self.new.write_faults }
        ensures beside { self.new.read_faults ≡ self.old.read_faults }
    {
        if piece.is_empty() {
            return Gave::Put(0);
        }
        match self.handed.connection.reply(piece) {
            Ok(()) => Gave::Put(piece.len()),
            Err(_) => {
                self.write_faults = self.write_faults.saturating_add(1);
                Gave::Failed
            }
        }
    }
}

impl<'a> Conn for Visit<'a> {
    ghost use Rattle.std.specs.Prelude.{refl};

    ghost source_beside = { λ conn. refl };

    ghost sink_beside = { λ conn. refl };
}
