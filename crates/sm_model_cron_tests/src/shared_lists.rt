//! Lists whose copies share their items, at any length.
ghost use Rattle.std.specs.Prelude.{nat_lt};

use sm_base::{Copied, Keyed, NoMemory, Picks, SharedList, Text};
use std::alloc::Global;
use std::test::Fail;

/// An item with a number.
#[derive(Drop)]
struct Numbered {
    number: u64,
    key: Text,
}

impl Keyed for Numbered {
    ghost key = { λ item. item.key };

    fn key(&self) -> &[u8] {
        self.key.as_bytes()
    }
}

fn item_of(number: u64) -> Numbered {
    Numbered {
        number,
        key: Text::fixed("key"),
    }
}

/// Items with a number below a bound.
struct Below {
    bound: u64,
}

impl Picks<Numbered> for Below {
    ghost picked = { λ below item. nat_lt item.number below.bound };

    fn picks(&self, item: &Numbered) -> bool {
        item.number < self.bound
    }
}

/// A list to which so many items were added, each to a copy of the list before it, as a row is changed. Each third
/// change puts an item with a number from 1,000 on in the place of an older one too.
fn changed(alloc: Global, count: usize) -> Result<SharedList<Numbered>, NoMemory> {
    let mut all = SharedList::empty(alloc);
    for number in 0..count {
        let mut next = all.copy(alloc)?;
        next.push(alloc, item_of(number as u64))?;
        if number % 3 == 0 && number / 2 < next.len() {
            next.replace(alloc, number / 2, item_of(1000 + (number % 1000) as u64))?;
        }
        all = next;
    }
    Ok(all)
}

/// The numbers of these items, made on a vector.
fn changed_numbers(alloc: Global, count: usize) -> Result<Vec<u64>, NoMemory> {
    let mut all = Vec::new(alloc);
    for number in 0..count {
        all.push(number as u64)?;
        if number % 3 == 0 && number / 2 < all.len() {
            all[number / 2] = 1000 + (number % 1000) as u64;
        }
    }
    Ok(all)
}

/// The number of the item at a place.
fn number_at(all: &SharedList<Numbered>, place: usize) -> Option<u64> {
    match all.get(place) {
        Some(item) => Some(item.number),
        None => None,
    }
}

/// A number that shows the numbers of the items, in their order.
fn shown(alloc: Global, all: &SharedList<Numbered>) -> Result<u64, NoMemory> {
    let mut shown: u64 = 0;
    for item in all.items(alloc)? {
        shown = shown.wrapping_mul(10).wrapping_add(item.number);
    }
    Ok(shown)
}

/// The same of numbers.
fn wanted_shown(numbers: &[u64]) -> u64 {
    let mut shown: u64 = 0;
    for number in numbers {
        shown = shown.wrapping_mul(10).wrapping_add(*number);
    }
    shown
}

/// Whether the items of the list, in order and by their places, have these numbers.
fn has_numbers(
    alloc: Global,
    all: &SharedList<Numbered>,
    wanted: &[u64],
) -> Result<bool, NoMemory> {
    let mut same = all.len() == wanted.len();
    for place in 0..wanted.len() {
        same = same && number_at(all, place) == Some(wanted[place]);
    }
    Ok(same && shown(alloc, all)? == wanted_shown(wanted))
}

/// Whether a list of so many changes has what it should, before and after its newer items were taken out, and one was
/// added to what is left; and whether its copy has what it had.
fn is_right(alloc: Global, count: usize) -> Result<bool, NoMemory> {
    let mut all = changed(alloc, count)?;
    let mut wanted = changed_numbers(alloc, count)?;
    let copy = all.copy(alloc)?;
    let before = has_numbers(alloc, &all, wanted.as_slice())?;
    all.retain(&Below { bound: 1000 });
    all.push(alloc, item_of(count as u64))?;
    let copied = has_numbers(alloc, &copy, wanted.as_slice())?;
    wanted.retain(|number| *number < 1000);
    wanted.push(count as u64)?;
    Ok(before && copied && has_numbers(alloc, &all, wanted.as_slice())?)
}

/// Counts of changes beside those at which items move to another run.
static COUNTS: [usize; 12] = [0, 1, 2, 8, 9, 17, 40, 41, 49, 90, 130, 250];

#[test]
fn lists_of_any_length_are_right(rt: HostRuntime) -> Result<(), Fail> {
    for count in &COUNTS {
        assert!(rt; is_right(rt.alloc(), *count)?, "{count}");
    }
    Ok(())
}
