//! The serials of the rows that have a job, in a vector with room.
ghost use Rattle.std.specs.Prelude.{◌≡◌, ◌<◌, ◌≤◌, false, true, IsTrue, List, ℕ, length, nat_lt, filter, vec_len, vec_capacity};
ghost use Rattle.sm_base.specs.declared.moment.Moment.{Moment};
ghost use Rattle.sm_table.specs.Changes.{row_with};
ghost use Rattle.sm_table.specs.Maps.{stays};
ghost use Rattle.sm_table.specs.Ordered.{before, placed, taken, ordered};
ghost use Rattle.sm_table.specs.Jobs.{with_job, IsBut};

use crate::row_map::RowMap;
use sm_model::Moment;

/// How many of the serials are below this one.
fn place_of(serials: &[u64], serial: u64) -> usize
    requires { IsTrue (ordered nat_lt serials.now) }
    ensures place { result ≡ before nat_lt serials.now serial }
    ensures within { result ≤ length serials.now }
{
    serials.partition_point(|other| *other < serial)
}

/// Puts a serial in.
#[tactic(auto, using(crate::proofs::OrderedLemmas::insert_placed))]
fn put_in(serials: &mut Vec<u64>, serial: u64)
    requires ordered { IsTrue (ordered nat_lt serials.old.items) }
    requires room { vec_len serials.old < vec_capacity serials.old }
    ensures serials { serials.new.items ≡ placed nat_lt serials.old.items serial }
    ensures room { vec_capacity serials.new ≡ vec_capacity serials.old }
{
    let place = place_of(serials.as_slice(), serial);
    match serials.insert(place, serial) {
        Ok(()) => {}
        Err(_) => unreachable!(),
    }
}

/// Takes a serial out, if it is there.
fn take_out(serials: &mut Vec<u64>, serial: u64)
    requires ordered { IsTrue (ordered nat_lt serials.old.items) }
    ensures serials { serials.new.items ≡ taken nat_lt serials.old.items serial }
    ensures room { vec_capacity serials.new ≡ vec_capacity serials.old }
{
    let place = place_of(serials.as_slice(), serial);
    if place < serials.len() {
        if serials[place] <= serial {
            let _ = serials.remove(place);
        }
    }
}

/// Puts a serial in or takes it out, where its row gets a job or loses it.
pub fn turn(serials: &mut Vec<u64>, serial: u64, was: bool, is: bool)
    requires { (others : List ℕ) × IsBut serials.old.items (vec_capacity serials.old) was serial others }
    ensures serials { (others : List ℕ) → serials.old.items ≡ with_job was others serial
        → serials.new.items ≡ with_job is others serial }
    ensures room { vec_capacity serials.new ≡ vec_capacity serials.old }
{
    match (was, is) {
        (false, true) => put_in(serials, serial),
        (true, false) => take_out(serials, serial),
        (true, true) => {}
        (false, false) => {}
    }
}

/// Drops the serials of the rows that are gone at the moment.
pub fn sweep(serials: &mut Vec<u64>, rows: &RowMap, moment: Moment)
    ensures serials { serials.new.items ≡ filter (λ s. stays (row_with rows.now.list s) moment) serials.old.items }
    ensures room { vec_capacity serials.new ≡ vec_capacity serials.old }
{
    serials.retain(|serial| rows.stays(*serial, moment));
}
