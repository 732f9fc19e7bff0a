//! Sources, sinks, words and clocks.
use crate::fakes::{FlakyReader, FlakyWriter, SetClock, Sevens};
use crate::shown::Shown;
use sm_base::moment::LAST_READING;
use sm_base::{Bytes, Fails, List, Moment, NoMemory};
use sm_io::{
    Clock, CountWords, Drew, FixedClock, Gave, ListClock, ListWords, MemorySink, MemorySource,
    QuietSink, ReadEnd, Sink, Source, StreamSink, StreamSource, SystemClock, SystemRandom, Words,
    Wrote, put_all, read_to,
};
use sm_memory_fixtures::fails::fails_of;
use std::alloc::Global;
use std::fs;
use std::sync::atomic::AtomicU64;
use std::test::Fail;

/// What is tried.
#[derive(Clone, Copy)]
enum Case {
    /// Two reads of a source in memory with a step of 4, up to so many bytes, whose second take fails.
    MemorySource(usize),
    StreamSource,
    ZeroFile,
    /// Two puts to a sink in memory with a step of 3, whose second call fails.
    MemorySink,
    QuietSink,
    StreamSink,
    FullFile,
    NullFile,
    CountWords,
    ListWords,
    /// Two draws from a source that fails so often.
    Sevens(u64),
    SystemRandom,
    FixedClock,
    ListClock,
    EmptyClock,
    SetClock(Option<u64>),
    SystemClock,
}

/// A name, what is tried, and what comes of it: bytes, a `.` for an end or an Ok, a `|` for a limit, and a `!` or how
/// many bytes were put for a fault.
type Row = (&'static str, Case, &'static [u8]);

const ROWS: [Row; 24] = [
    (
        "nothing is read at a limit of 0",
        Case::MemorySource(0),
        b"||",
    ),
    (
        "a read stops at its limit",
        Case::MemorySource(4),
        b"abcd|!",
    ),
    (
        "a read goes on after a fault",
        Case::MemorySource(9),
        b"abcd!efghij.",
    ),
    ("a reader fails and ends", Case::StreamSource, b"abc!."),
    (
        "a file is read up to a limit",
        Case::ZeroFile,
        b"\0\0\0|\0\0\0|",
    ),
    ("a put stops at a fault", Case::MemorySink, b"3.abcde"),
    (
        "a sink that keeps nothing takes all",
        Case::QuietSink,
        b"..",
    ),
    (
        "a writer that takes nothing failed",
        Case::StreamSink,
        b"2!!!3",
    ),
    ("a full file takes nothing", Case::FullFile, b"00"),
    ("a null file takes all", Case::NullFile, b".."),
    (
        "words count up past 255",
        Case::CountWords,
        b"\xfe\xff\0!\x01\x02\x03",
    ),
    ("a list of words ends", Case::ListWords, b"abc!def!"),
    (
        "a draw has all its bytes from the source",
        Case::Sevens(0),
        b"\x07\x07\x07\x07\x07\x07",
    ),
    (
        "a draw that failed is told and not tried again",
        Case::Sevens(1),
        b"!\x07\x07\x07",
    ),
    ("each draw that failed is told", Case::Sevens(2), b"!!"),
    (
        "the system's words are not all zeros",
        Case::SystemRandom,
        b"..",
    ),
    ("a clock stands", Case::FixedClock, b"\0\0\0\0\0\0\0\x05"),
    (
        "a list of moments goes on with its last",
        Case::ListClock,
        b"\0\0\0\0\0\0\0\x09",
    ),
    (
        "a clock without moments reads 0",
        Case::EmptyClock,
        b"\0\0\0\0\0\0\0\0",
    ),
    (
        "a clock reads its system",
        Case::SetClock(Some(1_700_000_000)),
        b"\0\0\0\0\x65\x53\xf1\0",
    ),
    (
        "a clock reads its last moment",
        Case::SetClock(Some(LAST_READING)),
        b"\0\0\0\x2e\x90\xed\xd0\0",
    ),
    (
        "a clock is clamped",
        Case::SetClock(Some(LAST_READING + 1)),
        b"\0\0\0\x2e\x90\xed\xd0\0",
    ),
    (
        "a clock whose system fails reads 0",
        Case::SetClock(None),
        b"\0\0\0\0\0\0\0\0",
    ),
    ("the system's clock is past 2020", Case::SystemClock, b"."),
];

/// The second call is told to fail.
pub fn second(alloc: Global) -> Result<Fails, NoMemory> {
    fails_of(alloc, &[2], None)
}

/// Two reads of a source.
pub fn read<S: Source>(alloc: Global, source: &mut S, limit: usize, shown: &mut Shown) {
    for _ in 0..2 {
        let read = read_to(alloc, source, limit);
        shown.add(read.bytes.as_slice());
        shown.push(match read.end {
            ReadEnd::End => b'.',
            ReadEnd::Full => b'|',
            ReadEnd::Failed => b'!',
            ReadEnd::Memory => b'?',
        });
    }
}

fn digit(count: u64) -> u8 {
    b'0' + (count % 10) as u8
}

/// Puts two pieces into a sink.
fn put<K: Sink>(sink: &mut K, shown: &mut Shown) {
    for piece in ["abcdefgh", "de"] {
        shown.push(match put_all(sink, piece.as_bytes()) {
            Wrote::Ok => b'.',
            Wrote::Fault(count) => digit(count),
        });
    }
}

/// Five puts of a piece.
pub fn put_once<K: Sink>(sink: &mut K, shown: &mut Shown) {
    for _ in 0..5 {
        shown.push(match sink.put(b"xyz") {
            Gave::Put(count) => digit(count as u64),
            Gave::Failed => b'!',
        });
    }
}

fn draw<W: Words>(words: &mut W, times: u8, shown: &mut Shown) {
    for _ in 0..times {
        match words.draw(3) {
            Drew::Bytes(bytes) => shown.add(bytes.as_slice()),
            Drew::Failed => shown.push(b'!'),
            Drew::Memory => shown.push(b'?'),
        }
    }
}

/// A `.` for each half of a long draw that has another byte than 0.
fn draw_long<W: Words>(words: &mut W, shown: &mut Shown) {
    if let Drew::Bytes(bytes) = words.draw(600) {
        for half in bytes.as_slice().chunks(300) {
            shown.push_well(half.iter().any(|byte| *byte != 0));
        }
    }
}

/// The last of three readings.
fn reading<C: Clock>(clock: &mut C) -> u64 {
    clock.now();
    clock.pause();
    clock.now();
    clock.now().0
}

fn show_reading<C: Clock>(clock: &mut C, shown: &mut Shown) {
    shown.add(&reading(clock).to_be_bytes());
}

/// A value that may cross threads.
fn sendable<T: Send>(value: T) -> T {
    value
}

fn memory_source(alloc: Global) -> Result<MemorySource, NoMemory> {
    let fails = second(alloc)?;
    Ok(MemorySource::new(Bytes::from_slice(alloc, b"abcdefghij")?, 4, fails))
}

fn show_source(rt: &HostRuntime, case: Case, shown: &mut Shown) -> Result<(), Fail> {
    let alloc = rt.alloc();
    match case {
        Case::MemorySource(limit) => {
            read(alloc, &mut sendable(memory_source(alloc)?), limit, shown);
        }
        Case::ZeroFile => {
            let source = StreamSource::new(fs::open(rt, "/dev/zero")?);
            read(alloc, &mut sendable(source), 3, shown);
        }
        _ => {
            let source = StreamSource::new(FlakyReader { calls: 0 });
            read(alloc, &mut sendable(source), 100, shown);
        }
    }
    Ok(())
}

/// A sink in memory with a step of 3, whose second call fails: two puts, and what it took.
fn show_memory_sink(alloc: Global, shown: &mut Shown) -> Result<(), Fail> {
    let mut sink = sendable(MemorySink::new(alloc, 3, second(alloc)?));
    put(&mut sink, shown);
    shown.add(sink.taken().as_slice());
    Ok(())
}

/// Two puts to a file.
fn show_file_sink(rt: &HostRuntime, path: &str, shown: &mut Shown) -> Result<(), Fail> {
    let file = fs::create(rt, path)?;
    put(&mut sendable(StreamSink::new(file)), shown);
    Ok(())
}

fn show_sink(rt: &HostRuntime, case: Case, shown: &mut Shown) -> Result<(), Fail> {
    match case {
        Case::MemorySink => show_memory_sink(rt.alloc(), shown),
        Case::FullFile => show_file_sink(rt, "/dev/full", shown),
        Case::NullFile => show_file_sink(rt, "/dev/null", shown),
        Case::QuietSink => Ok(put(&mut sendable(QuietSink), shown)),
        _ => {
            let sink = StreamSink::new(FlakyWriter { calls: 0 });
            Ok(put_once(&mut sendable(sink), shown))
        }
    }
}

fn list_words(alloc: Global) -> Result<ListWords, NoMemory> {
    let fails = second(alloc)?;
    Ok(ListWords::new(alloc, Bytes::from_slice(alloc, b"abcdef")?, fails))
}

fn show_words(rt: &HostRuntime, case: Case, shown: &mut Shown) -> Result<(), Fail> {
    let alloc = rt.alloc();
    match case {
        Case::CountWords => {
            let words = CountWords::new(alloc, 254, second(alloc)?);
            draw(&mut sendable(words), 3, shown);
        }
        Case::ListWords => draw(&mut sendable(list_words(alloc)?), 4, shown),
        Case::Sevens(failing) => {
            let calls = AtomicU64::new(0);
            let words = SystemRandom::new(alloc, Sevens { calls, failing });
            draw(&mut sendable(words), 2, shown);
        }
        _ => draw_long(&mut sendable(SystemRandom::new(alloc, rt)), shown),
    }
    Ok(())
}

fn list_clock(alloc: Global) -> Result<ListClock, NoMemory> {
    let moments = Vec::from_slice(alloc, &[Moment(3), Moment(9)])?;
    Ok(ListClock::new(List::new(moments)))
}

fn show_clock(rt: &HostRuntime, case: Case, shown: &mut Shown) -> Result<(), Fail> {
    let alloc = rt.alloc();
    match case {
        Case::FixedClock => show_reading(&mut sendable(FixedClock::new(Moment(5))), shown),
        Case::ListClock => show_reading(&mut sendable(list_clock(alloc)?), shown),
        Case::EmptyClock => show_reading(&mut sendable(ListClock::new(List::empty(alloc))), shown),
        Case::SetClock(seconds) => {
            let clock = SystemClock::new(SetClock { seconds });
            show_reading(&mut sendable(clock), shown);
        }
        _ => shown.push_well(reading(&mut sendable(SystemClock::new(rt))) > 1_577_836_800),
    }
    Ok(())
}

fn show_case(rt: &HostRuntime, case: Case, shown: &mut Shown) -> Result<(), Fail> {
    match case {
        Case::MemorySource(_) | Case::StreamSource | Case::ZeroFile => show_source(rt, case, shown),
        Case::MemorySink | Case::QuietSink | Case::StreamSink | Case::FullFile | Case::NullFile =>
            show_sink(rt, case, shown),
        Case::CountWords | Case::ListWords | Case::Sevens(_) | Case::SystemRandom => {
            show_words(rt, case, shown)
        }
        Case::FixedClock
        | Case::ListClock
        | Case::EmptyClock
        | Case::SetClock(_)
        | Case::SystemClock => show_clock(rt, case, shown),
    }
}

#[test]
fn each_form_does_what_it_says(rt: HostRuntime) -> Result<(), Fail> {
    for (name, case, wanted) in &ROWS {
        let mut shown = Shown::new(rt.alloc());
        show_case(&rt, *case, &mut shown)?;
        shown.compare(&rt, name, wanted);
    }
    Ok(())
}
