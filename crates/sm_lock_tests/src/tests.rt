use crate::calls::build_and_close;
use crate::notes::tell_the_third;
use crate::rounds::all_are_woken;
use crate::tally::Tally;
use crate::threads::both;
use std::test::*;

fn shown(tally: &Tally) -> (u64, usize, bool, bool) {
    let has = |entry: (u32, u64)| tally.entries.iter().any(|e| *e == entry);
    (tally.total(), tally.entries.len(), has((1, 7)), has((2, 5)))
}

#[test]
fn built_with_three_seats_and_closed(rt: HostRuntime) -> Result<(), Fail> {
    let mut tally = Tally::new(rt.alloc(), 30);
    tally.put(1, 7)?;
    let last = build_and_close(rt.alloc(), tally, 3)
        .ok()
        .map(|t| shown(&t));
    assert_eq!(rt; last, Some((37, 1, true, false)));
    Ok(())
}

#[test]
fn two_threads_add(rt: HostRuntime) {
    let tally = Tally::new(rt.alloc(), 0);
    let last = both(&rt, rt.alloc(), tally, 7, 5).ok();
    let last = last.map(|r| (shown(&r.0), r.1, r.2));
    assert_eq!(rt; last, Some(((12, 2, true, true), true, true)));
}

#[test]
fn a_note_is_heard(rt: HostRuntime) {
    let tally = Tally::new(rt.alloc(), 0);
    let last = tell_the_third(&rt, rt.alloc(), tally, 7).ok();
    let last = last.map(|r| (shown(&r.0), r.1, r.2));
    assert_eq!(rt; last, Some(((7, 1, true, false), true, 1)));
}

/// The greatest number of rounds that those who wait are woken in.
const ROUNDS: u32 = 100_000;

// A leave that wakes nobody, or at another flag, or who parks on another ticket's flag, makes it wait for ever.
#[test]
fn those_who_wait_are_woken(rt: HostRuntime) {
    let tally = Tally::new(rt.alloc(), 0);
    let last = all_are_woken(&rt, rt.alloc(), tally, ROUNDS).ok();
    let last = last.map(|r| (r.0.total() == r.1, r.0.entries.len() as u64 == r.1));
    assert_eq!(rt; last, Some((true, true)));
}
