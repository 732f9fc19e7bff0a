//! Dates of rows, in a vector with room: those at which rotations come due, and those of deletions.
ghost use Rattle.std.specs.Prelude.{◌≡◌, ◌<◌, ◌≤◌, IsTrue, List, ℕ, Option, None, length, filter, option_copied, vec_len, vec_capacity};
ghost use Rattle.sm_table.specs.declared.dates.DueDate.{DueDate};
ghost use Rattle.sm_table.specs.Ordered.{before, placed, taken, ordered};
ghost use Rattle.sm_table.specs.Dates.{is_before, with_date, lower, lower_if, comes, lowest_due, is_later, reached, IsBut};

use crate::row_map::RowMap;
use sm_model::Moment;
use sm_versions::When;

/// A date of the row with the serial, at which something of it is due.
#[derive(Clone, Copy)]
pub struct DueDate {
    pub date: Moment,
    pub serial: u64,
}

/// Whether the date is earlier, or the same and the serial lower.
fn is_before(due: &DueDate, other: &DueDate) -> bool
    ensures { result ≡ is_before due.now other.now }
{
    due.date.0 < other.date.0 || due.date.0 == other.date.0 && due.serial < other.serial
}

/// How many of the dates are before this one.
fn place_of(dates: &[DueDate], due: &DueDate) -> usize
    requires { IsTrue (ordered is_before dates.now) }
    ensures place { result ≡ before is_before dates.now due.now }
    ensures within { result ≤ length dates.now }
{
    dates.partition_point(|other| is_before(other, due))
}

/// Puts a date in.
#[tactic(auto, using(crate::proofs::OrderedLemmas::insert_placed))]
fn put_in(dates: &mut Vec<DueDate>, due: DueDate)
    requires ordered { IsTrue (ordered is_before dates.old.items) }
    requires room { vec_len dates.old < vec_capacity dates.old }
    ensures dates { dates.new.items ≡ placed is_before dates.old.items due }
    ensures room { vec_capacity dates.new ≡ vec_capacity dates.old }
{
    let place = place_of(dates.as_slice(), &due);
    match dates.insert(place, due) {
        Ok(()) => {}
        Err(_) => unreachable!(),
    }
}

/// Takes a date out, if it is there.
fn take_out(dates: &mut Vec<DueDate>, due: DueDate)
    requires ordered { IsTrue (ordered is_before dates.old.items) }
    ensures dates { dates.new.items ≡ taken is_before dates.old.items due }
    ensures room { vec_capacity dates.new ≡ vec_capacity dates.old }
{
    let place = place_of(dates.as_slice(), &due);
    if place < dates.len() {
        if is_before(&due, &dates[place]) {
            return;
        }
        let _ = dates.remove(place);
    }
}

/// Whether both dates are there and the same, or none is.
fn is_same(date: Option<Moment>, other: Option<Moment>) -> bool
    ensures { IsTrue result → date ≡ other }
{
    match (date, other) {
        (Some(date), Some(other)) => date.0 == other.0,
        (None, None) => true,
        (Some(_), None) => false,
        (None, Some(_)) => false,
    }
}

/// Puts a date in or takes it out, where a row gets another one.
pub fn turn(dates: &mut Vec<DueDate>, serial: u64, was: Option<Moment>, is: Option<Moment>)
    requires { (others : List DueDate) × IsBut dates.old.items (vec_capacity dates.old) was serial others }
    ensures dates { (others : List DueDate) → dates.old.items ≡ with_date was others serial
        → dates.new.items ≡ with_date is others serial }
    ensures room { vec_capacity dates.new ≡ vec_capacity dates.old }
{
    if is_same(was, is) {
        return;
    }
    take_date(dates, serial, was);
    put_date(dates, serial, is);
}

/// Takes the date of a row out, where there is one.
fn take_date(dates: &mut Vec<DueDate>, serial: u64, was: Option<Moment>)
    requires { (others : List DueDate) × IsBut dates.old.items (vec_capacity dates.old) was serial others }
    ensures dates { (others : List DueDate) → dates.old.items ≡ with_date was others serial
        → dates.new.items ≡ others }
    ensures room { vec_capacity dates.new ≡ vec_capacity dates.old }
{
    match was {
        Some(date) => take_out(dates, DueDate { date, serial }),
        None => {}
    }
}

/// Puts the date of a row in, where there is one.
fn put_date(dates: &mut Vec<DueDate>, serial: u64, is: Option<Moment>)
    requires ordered { IsTrue (ordered is_before dates.old.items) }
    requires room { vec_len dates.old < vec_capacity dates.old }
    ensures dates { dates.new.items ≡ with_date is dates.old.items serial }
    ensures room { vec_capacity dates.new ≡ vec_capacity dates.old }
{
    match is {
        Some(date) => put_in(dates, DueDate { date, serial }),
        None => {}
    }
}

/// How many of the dates the moment has reached.
pub fn reached(dates: &[DueDate], moment: Moment) -> usize
    requires { IsTrue (ordered is_before dates.now) }
    ensures reached { result ≡ reached dates.now moment }
    ensures within { result ≤ length dates.now }
{
    dates.partition_point(|due| due.date.0 <= moment.0)
}

/// Drops the dates that the moment has reached.
pub fn drop_reached(dates: &mut Vec<DueDate>, moment: Moment)
    ensures later { dates.new.items ≡ filter (is_later moment) dates.old.items }
    ensures room { vec_capacity dates.new ≡ vec_capacity dates.old }
{
    dates.retain(|due| moment.0 < due.date.0);
}

/// The lower of two serials.
fn lower(first: Option<u64>, serial: u64) -> Option<u64>
    ensures { result ≡ lower first serial }
{
    match first {
        Some(other) => {
            if other <= serial {
                Some(other)
            } else {
                Some(serial)
            }
        }
        None => Some(serial),
    }
}

/// The lower of two serials, where the second counts.
fn lower_if(counts: bool, first: Option<u64>, serial: u64) -> Option<u64>
    ensures { result ≡ lower_if counts first serial }
{
    if counts { lower(first, serial) } else { first }
}

/// Whether the moment has reached the date, and a version may be added to its row.
fn comes(rows: &RowMap, moment: Moment, due: &DueDate) -> bool
    ensures { result ≡ comes rows.now.list moment due.now }
{
    due.date.0 <= moment.0 && rows.has_room(due.serial, When::pruning(moment))
}

/// The lowest serial of a date that the moment has reached and whose row has room for a version.
pub fn lowest_due(rows: &RowMap, moment: Moment, dates: &[DueDate]) -> Option<u64>
    requires { IsTrue (ordered is_before dates.now) }
    ensures { result ≡ lowest_due rows.now.list moment None dates.now }
{
    let mut lowest = None;
    for due in dates {
        if due.date.0 > moment.0 {
            return lowest;
        }
        lowest = lower_if(comes(rows, moment, due), lowest, due.serial);
    }
    lowest
}
