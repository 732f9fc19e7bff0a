//! What an opening of the journal finds, and how far it is.
use sm_base::limits::JOURNAL_LIMIT;
use sm_io::{Clock as _, SystemClock};
use sm_journal::{Format, HEADER_SIZE, ROOT, format_at, record_size};
use sm_server::Witness;
use sm_store::is_marked;
use sm_table::Table;
use std::fs::File;
use std::io;
use std::os::unix::fs::FileExt;
use std::sync::atomic::{AtomicU64, Ordering};
use std::time::{Clock, Duration};

/// How many bytes are read between two looks at the time.
const PIECE: usize = 8_388_608;

/// How many entries are replayed in less than a second.
const QUICK: u64 = 100_000;

/// The number that says that there is none.
const NOTHING: u64 = u64::MAX;

/// The name of the file of this number.
pub fn name_of(file: u8) -> &'static str {
    match file {
        0 => "journal-0",
        1 => "journal-1",
        _ => "root",
    }
}

/// The name of the journal's file of this number.
fn journal_name(number: u64) -> &'static str {
    if number == 0 { name_of(0) } else { name_of(1) }
}

/// What an opening of the journal finds: how many entries, how many bytes its whole records have, and how many secrets
/// are there then. The journal is the file that the root names, as far as the root was read.
#[derive(Drop)]
pub struct Opening<'a> {
    rt: &'a HostRuntime,
    secrets: AtomicU64,
    entries: AtomicU64,
    bytes: AtomicU64,
    /// How long the journal was that was read just now, or nothing.
    read: AtomicU64,
    /// The number of the journal's file.
    named: AtomicU64,
    /// Whether it is of the first format: 1, and else 0.
    first: AtomicU64,
    /// How long the other file is that is made.
    made: AtomicU64,
    /// The number of the file that the root is to name once it is synced, or nothing.
    next: AtomicU64,
}

impl<'a> Opening<'a> {
    /// Nothing was read yet.
    pub fn new(rt: &'a HostRuntime) -> Opening<'a> {
        Opening {
            rt,
            secrets: AtomicU64::new(0),
            entries: AtomicU64::new(0),
            bytes: AtomicU64::new(0),
            read: AtomicU64::new(NOTHING),
            named: AtomicU64::new(0),
            first: AtomicU64::new(0),
            made: AtomicU64::new(0),
            next: AtomicU64::new(NOTHING),
        }
    }

    /// The time by the clock that never goes back.
    fn time(&self) -> Duration {
        match self.rt.monotonic() {
            Ok(time) => time,
            Err(_) => Duration::ZERO,
        }
    }

    /// Reads a file from a place on. What the root and the whole journal say is noted.
    pub fn read(&self, file: &File, number: u8, at: u64, buf: &mut [u8]) -> io::Result<()> {
        let name = name_of(number);
        self.read_pieces(file, name, at, buf)?;
        if at == 0 && number == ROOT {
            self.named.store(named_by(buf), Ordering::SeqCst);
        } else if at == 0 && self.is_named(number) {
            self.note_journal(name, buf);
        }
        Ok(())
    }

    /// Whether this is the number of the journal's file.
    fn is_named(&self, number: u8) -> bool {
        self.named.load(Ordering::SeqCst) == number as u64
    }

    /// Reads a file from a place on, and says each second how far it is.
    fn read_pieces(&self, file: &File, name: &str, at: u64, buf: &mut [u8]) -> io::Result<()> {
        let total = buf.len();
        let mut last = self.time();
        let mut done: usize = 0;
        for piece in buf.chunks_mut(PIECE) {
            file.read_exact_at(piece, at.saturating_add(done as u64))?;
            done = done.saturating_add(piece.len());
            let now = self.time();
            if now.saturating_sub(last) >= Duration::from_secs(1) {
                last = now;
                let _ = eprintln!(self.rt;
                    "secretsd: {done} of the {total} bytes of {name} are read"
                );
            }
        }
        Ok(())
    }

    /// Notes what a whole journal says that was just read, and says that many entries are replayed now.
    fn note_journal(&self, name: &str, bytes: &[u8]) {
        let (entries, gate) = records_of(bytes);
        let size = gate.saturating_add(1);
        self.first.store(is_first(bytes) as u64, Ordering::SeqCst);
        self.entries.store(entries, Ordering::SeqCst);
        self.bytes.store(size as u64, Ordering::SeqCst);
        self.read.store(bytes.len() as u64, Ordering::SeqCst);
        if entries >= QUICK {
            let _ = eprintln!(self.rt;
                "secretsd: {name} is read, and its {entries} entries are replayed now"
            );
        }
    }

    /// Says how many bytes are cut off behind the last whole record of the journal, where it was just read. One that
    /// has no more than its header and a gate is made anew, and nothing is lost by that.
    pub fn note_cut(&self, number: u8, end: u64) {
        if !self.is_named(number) {
            return;
        }
        let length = self.read.swap(NOTHING, Ordering::SeqCst);
        if length != NOTHING && end > HEADER_SIZE && end < length {
            let count = length - end;
            let name = name_of(number);
            let _ = eprintln!(self.rt;
                "secretsd: {count} bytes behind the last whole record of {name} are cut off, from byte {end} on"
            );
        }
    }

    /// Notes that a piece of a file is written. Where that is the journal its opening is over, and else another one is
    /// made in its place, until the root is written.
    pub fn note_write(&self, number: u8, at: u64, piece: &[u8]) {
        if number == ROOT {
            self.next.store(named_by(piece), Ordering::SeqCst);
        } else if self.is_named(number) {
            self.read.store(NOTHING, Ordering::SeqCst);
        } else {
            let end = at.saturating_add(piece.len() as u64);
            self.made.store(end, Ordering::SeqCst);
        }
    }

    /// Notes that a file is synced. Where that is a root that was written, it says which file stands in the place of
    /// which.
    pub fn note_sync(&self, number: u8) {
        if number != ROOT {
            return;
        }
        let next = self.next.swap(NOTHING, Ordering::SeqCst);
        let old = self.named.load(Ordering::SeqCst);
        if next != NOTHING && next != old {
            self.note_switch(old, next);
        }
    }

    /// Says that a file stands in the place of another one: the second format in the place of the first, or what the
    /// entries made in the place of the entries.
    fn note_switch(&self, old: u64, new: u64) {
        let after = self.made.load(Ordering::SeqCst);
        let before = self.bytes.swap(after, Ordering::SeqCst);
        self.named.store(new, Ordering::SeqCst);
        self.entries.store(0, Ordering::SeqCst);
        self.read.store(NOTHING, Ordering::SeqCst);
        let what = if self.first.swap(0, Ordering::SeqCst) == 1 {
            "the journal was migrated"
        } else {
            "a checkpoint was made"
        };
        let (old, new) = (journal_name(old), journal_name(new));
        let _ = eprintln!(self.rt; "secretsd: {what}: {old} had {before} bytes, {new} has {after}");
    }

    /// How many secrets were there when it was opened.
    pub fn secrets(&self) -> u64 {
        self.secrets.load(Ordering::SeqCst)
    }

    /// How many entries the journal has.
    pub fn entries(&self) -> u64 {
        self.entries.load(Ordering::SeqCst)
    }

    /// How many bytes its records take.
    pub fn bytes(&self) -> u64 {
        self.bytes.load(Ordering::SeqCst)
    }

    /// How many bytes a journal may have.
    pub fn limit(&self) -> u64 {
        JOURNAL_LIMIT
    }
}

impl<'a> Witness for Opening<'a> {
    /// Notes how many of the secrets are not past their deletion date.
    fn opened(&self, table: &Table, _entries: u64) {
        let now = SystemClock::new(self.rt).now();
        self.secrets
            .store(table.count_at(now) as u64, Ordering::SeqCst);
    }
}

/// The number of the file that these bytes of a root name.
fn named_by(bytes: &[u8]) -> u64 {
    match bytes {
        [1, ..] => 1,
        _ => 0,
    }
}

/// Whether a journal is of the first format.
fn is_first(bytes: &[u8]) -> bool {
    HEADER_SIZE as usize <= bytes.len() && format_at(bytes) == Some(Format::First)
}

/// How many entries the whole records have that a journal begins with, and the place of the gate behind them. It judges
/// nothing: that is the opening's own work.
fn records_of(bytes: &[u8]) -> (u64, usize) {
    let mut count: u64 = 0;
    let mut gate = HEADER_SIZE as usize;
    for _ in 0..bytes.len() {
        match body_behind(bytes, gate) {
            Some(body) => {
                if !is_marked(body) {
                    count = count.saturating_add(1);
                }
                gate = gate.saturating_add(record_size(body) as usize);
            }
            None => return (count, gate),
        }
    }
    (count, gate)
}

/// The body of the whole record at an open gate.
fn body_behind(bytes: &[u8], gate: usize) -> Option<&[u8]> {
    if gate > bytes.len() {
        return None;
    }
    match bytes.split_at(gate).1 {
        [1, a, b, c, d, behind @ ..] => {
            let length = u32::from_be_bytes([*a, *b, *c, *d]) as usize;
            if length < behind.len() {
                Some(behind.split_at(length).0)
            } else {
                None
            }
        }
        _ => None,
    }
}
