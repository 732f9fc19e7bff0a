//! Runs of the server over memory.
use sm_account::Account;
use sm_base::limits::JOURNAL_LIMIT;
use sm_base::{Bytes, Moment};
use sm_disk::MemoryDisk;
use sm_io::{CountWords, FixedClock, MemorySink, MemorySource};
use sm_memory_fixtures::fails::fails_from;
use sm_model::Fails;
use sm_rotator::{LocalRotator, NoRotator, TellingRotator};
use sm_server::{Status, run_once};
use std::alloc::Global;
use std::test::Fail;

pub type Kept = Account<MemoryDisk, NoRotator>;

/// How a run ended, what it wrote, how many works its rotator was asked to do, and its disk.
#[derive(Drop)]
pub struct Ran {
    pub status: Status,
    pub written: Vec<u8>,
    pub works: usize,
    pub disk: MemoryDisk,
}

/// A run in mode exec over this input, whose random source fails from this call on.
pub fn run(
    alloc: Global,
    input: &[u8],
    random_from: Option<u64>,
    disk: MemoryDisk,
) -> Result<Ran, Fail> {
    let mut words = Vec::new(alloc);
    words.push(String::from_str(alloc, "--number=0")?)?;
    let bytes = Bytes::from_slice(alloc, input)?;
    let mut source = MemorySource::new(bytes, 1_000_000, Fails::never(alloc));
    let mut sink = MemorySink::new(alloc, 1_000_000, Fails::never(alloc));
    let mut clock = FixedClock::new(Moment(1_700_000_000));
    let mut random = CountWords::new(alloc, 0, fails_from(alloc, random_from));
    let mut rotator = TellingRotator::new(alloc, LocalRotator::new(alloc));
    let (status, disk) = run_once(
        alloc,
        words.as_slice(),
        &mut source,
        &mut sink,
        disk,
        &mut clock,
        &mut random,
        b"",
        &mut rotator,
    );
    Ok(Ran {
        status,
        written: Vec::from_slice(alloc, sink.taken().as_slice())?,
        works: rotator.told().len(),
        disk,
    })
}

/// The account that a disk recovers.
pub fn open(alloc: Global, disk: MemoryDisk) -> Option<Kept> {
    Account::open(alloc, disk, 1, JOURNAL_LIMIT).ok()
}

/// How many entries a disk recovers.
pub fn entries(alloc: Global, disk: MemoryDisk) -> Option<u64> {
    match open(alloc, disk) {
        Some(account) => Some(account.entries()),
        None => None,
    }
}
