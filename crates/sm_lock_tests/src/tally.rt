//! A list of numbers, each beside the seat that added it, and their running total.
ghost use Rattle.std.specs.Prelude.{◌≡◌, ◌+◌, ◌%◌, ◌^◌, [], ◌∷◌, ◌++◌, OnOk, OnErr};
ghost use Rattle.sm_lock_tests.specs.Sums.{sum_of};

use sm_base::NoMemory;
use std::alloc::Global;

#[derive(Drop)]
pub struct Tally {
    pub start: u64,
    pub entries: Vec<(u32, u64)>,
    total: u64,
    ghost adds_up: { total ≡ (start + sum_of entries.items) % 2 ^ 64 },
}

impl Tally {
    /// No numbers, and a total to begin with.
    pub fn new(alloc: Global, start: u64) -> Tally
        ensures { (result.start ≡ start) × (result.entries.items ≡ []) }
    {
        Tally {
            start,
            entries: Vec::new(alloc),
            total: start,
        }
    }

    /// The total to begin with and all numbers, modulo 2^64.
    pub fn total(&self) -> u64
        ensures { result ≡ (self.now.start + sum_of self.now.entries.items) % 2 ^ 64 }
    {
        self.total
    }

    /// Adds a number. Without memory nothing changes.
    pub fn put(&mut self, seat: u32, number: u64) -> Result<(), NoMemory>
        ensures start { self.new.start ≡ self.old.start }
        ensures ok { OnOk result (self.new.entries.items ≡ self.old.entries.items ++ (seat, number) ∷ []) }
        ensures err { OnErr result (self.new.entries.items ≡ self.old.entries.items) }
    {
        self.entries.reserve(1)?;
        let Tally { entries, total, .. } = self;
        entries.push_reserved((seat, number));
        *total = total.wrapping_add(number);
        Ok(())
    }
}
