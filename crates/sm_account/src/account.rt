//! The account.
ghost use Rattle.std.specs.Prelude.{◌≡◌, slice_get, option_copied};
ghost use Rattle.sm_account.specs.Allowed.{EntriesAllowed, StayVouched};
ghost use Rattle.sm_account.specs.AccountState.{Kept};
ghost use Rattle.sm_account.specs.KeptOnce.{Kept-prop};

use crate::account_state::AccountState;
use crate::counting::entries_count;
use crate::handled::Handled;
use crate::handling::handle;
use crate::next_work::{NextWork, next_work};
use crate::report::{Reported, report};
use crate::start_due::{StartedDue, start_due};
use crate::tested::TestedRequest;
use sm_claims::has_due;
use sm_disk::Disk;
use sm_model::{Entry, Label, Moment, Person, Request, SecretId, Value};
use sm_record::Base;
use sm_rotator::{Rotator, Verdict};
use sm_table::Table;
use sm_versions::Found;
use std::marker::PhantomData;

/// All secrets of an account, its entries on a disk, and the history since it was opened. Between any two calls its
/// state keeps what `Kept` says, and each answer that was entered is one that its rotator may give.
pub struct Account<D: Disk, R: Rotator> {
    inner: AccountState<D>,
    doors: u32,
    doors_at_opening: u32,
    rotator: PhantomData<R>,
    ghost kept: { Kept D.Disk inner } by { Kept-prop inner },
    ghost allowed: { ∥ EntriesAllowed R.replies inner ∥₁ },
}

/// Who lets an account go makes one call.
impl<D: Disk + Drop, R: Rotator> Drop for Account<D, R> {
    fn drop(self) {
        let Account {
            inner: _,
            doors: _,
            doors_at_opening: _,
            rotator: _,
        } = self;
    }
}

impl<D: Disk, R: Rotator> Account<D, R> {
    ghost use Rattle.std.specs.Prelude.{◌≡◌, ◌≤◌, ◌-◌, ◌++◌, length, is_some, option_copied, slice_get};
    ghost use Rattle.sm_base.specs.declared.moment.TheConstants.{LAST_READING};
    ghost use Rattle.sm_model.specs.Needed.{needed};
    ghost use Rattle.sm_recovery.specs.Lawful.{base_under, made_of};
    ghost use Rattle.sm_base_check.specs.Bases.{IsSound};
    ghost use Rattle.sm_table.specs.Sound.{Sound};
    ghost use Rattle.sm_account.specs.Accounts.{history, base, state, rows, disk, began, taken, all_of, failed, is_unsure, doors, SameOrigin};
    ghost use Rattle.sm_account.specs.AccountState.{FaultsBound, faults_of};
    ghost use Rattle.sm_account.specs.Claims.{ClaimsReady, ready_at};
    ghost use Rattle.sm_account.specs.Crashes.{HoldsOnDisk};
    ghost use Rattle.sm_account.specs.CallOutcomes.{Leaves};
    ghost use Rattle.sm_account.specs.Handled.{HandledAs, marks_of};
    ghost use Rattle.sm_account.specs.History.{by_seat, entries_in, faults_in};
    ghost use Rattle.sm_account.specs.Handling.{handled_by, HasShortTexts};
    ghost use Rattle.sm_account.specs.NextWork.{NextAs, next_by};
    ghost use Rattle.sm_account.specs.Outcome.{outcome};
    ghost use Rattle.sm_account.specs.Report.{ReportsAs, report_at, reported_by};
    ghost use Rattle.sm_account.specs.StartDue.{StartsAs, start_at, started_by};
    ghost use Rattle.sm_account.specs.Values.{value_labelled};
    ghost use Rattle.sm_claims.specs.Due.{has_due};
    ghost use Rattle.sm_core.specs.Histories.{later, replay};

    /// An account over a state of which all holds that is kept.
    pub(crate) fn over(inner: AccountState<D>, doors: u32) -> Account<D, R>
        requires kept { Kept D.Disk inner }
        requires allowed { ∥ EntriesAllowed R.replies inner ∥₁ }
        ensures inner { result.inner ≡ inner }
        ensures doors { result.doors ≡ doors }
        ensures at_opening { result.doors_at_opening ≡ doors }
    {
        Account {
            inner,
            doors,
            doors_at_opening: doors,
            rotator: PhantomData,
        }
    }

    /// How many marks its history has.
    pub(crate) fn marks_count(&self) -> u64
        ensures { result ≡ length (history self.now) }
    {
        self.inner.marks
    }

    /// Answers a request of a person at a reading of the clock, with the random bytes that were drawn for it. An entry
    /// that is due is written to the disk before its change is made, and stands in the history under the seat.
    pub fn handle(
        &mut self,
        seat: u32,
        person: &Person,
        now: Moment,
        drawn: &[u8],
        request: &Request,
    ) -> Handled
        requires bound { now.0 ≤ LAST_READING }
        requires drawn { length drawn.now ≡ needed request.now }
        requires person { HasShortTexts person.now }

        // The answer is that at the history, and the history goes on by its mark.
        ensures handled { HandledAs result (outcome (state self.old)
            (record { person = person.now; now = now; drawn = drawn.now; request = request.now })) }
        ensures history { history self.new ≡ history self.old ++ by_seat seat (marks_of result
            (outcome (state self.old)
            (record { person = person.now; now = now; drawn = drawn.now; request = request.now }))) }

        // A refusal and lack of memory leave rows, journal and disk. Once an entry is acknowledged the tail is sure; a
        // fault of the disk leaves the rows, and the tail is unsure.
        ensures leaves { Leaves D.Disk self.old.inner self.new.inner seat (handled_by result
            (outcome (state self.old)
            (record { person = person.now; now = now; drawn = drawn.now; request = request.now }))) }
        ensures origin { SameOrigin self.old self.new }
    {
        let tested = TestedRequest::new(self.inner.alloc, request);
        self.handle_tested(seat, person, now, drawn, tested)
    }

    /// Answers a request as `handle` does, whose forms were tested before.
    pub fn handle_tested(
        &mut self,
        seat: u32,
        person: &Person,
        now: Moment,
        drawn: &[u8],
        tested: TestedRequest<'_>,
    ) -> Handled
        requires bound { now.0 ≤ LAST_READING }
        requires drawn { length drawn.now ≡ needed (tested.request.now) }
        requires person { HasShortTexts person.now }

        // The answer is that at the history, and the history goes on by its mark.
        ensures handled { HandledAs result (outcome (state self.old)
            (record { person = person.now; now = now; drawn = drawn.now; request = tested.entry.request.now })) }
        ensures history { history self.new ≡ history self.old ++ by_seat seat (marks_of result
            (outcome (state self.old)
            (record { person = person.now; now = now; drawn = drawn.now; request = tested.entry.request.now }))) }

        // A refusal and lack of memory leave rows, journal and disk. Once an entry is acknowledged the tail is sure; a
        // fault of the disk leaves the rows, and the tail is unsure.
        ensures leaves { Leaves D.Disk self.old.inner self.new.inner seat (handled_by result
            (outcome (state self.old)
            (record { person = person.now; now = now; drawn = drawn.now; request = tested.entry.request.now }))) }
        ensures origin { SameOrigin self.old self.new }
    {
        handle(&mut self.inner, seat, person, now, drawn, tested)
    }

    /// Claims the first step of a rotation that is ready at a reading of the clock, in order of the secrets' creation:
    /// a step of a live job whose next attempt may be made, and of which no claim is open. A claim ends after 30
    /// seconds. It gives the work with the values as they stand.
    pub fn next_work(&mut self, seat: u32, now: Moment) -> NextWork
        requires { now.0 ≤ LAST_READING }

        // There is a work exactly where a step is ready, and it is of that step; its claim is added to the history.
        ensures next { NextAs result (ready_at (base self.old) (history self.old) (later (state self.old).last now)) }
        ensures leaves { Leaves D.Disk self.old.inner self.new.inner seat
            (next_by result (later (state self.old).last now)) }
        ensures origin { SameOrigin self.old self.new }
    {
        next_work(&mut self.inner, seat, now)
    }

    /// Whether some rotation is due at a reading of the clock, for a token that no version of its secret has. It takes
    /// no memory.
    pub fn has_due(&self, now: Moment) -> bool
        requires { now.0 ≤ LAST_READING }
        ensures { result ≡ has_due (rows self.now).secrets (later (state self.now).last now) }
    {
        let moment = Moment(self.inner.last.0.max(now.0));
        has_due(&self.inner.table, moment)
    }

    /// Starts the first rotation that is due at a reading of the clock for the token of these random bytes, in order of
    /// the secrets' creation. The entry is written to the disk before its change is made.
    pub fn start_due(&mut self, seat: u32, now: Moment, drawn: &[u8; 16]) -> StartedDue
        requires { now.0 ≤ LAST_READING }
        ensures starts { StartsAs result (start_at (state self.old) now drawn.now) }
        ensures leaves { Leaves D.Disk self.old.inner self.new.inner seat
            (started_by result (start_at (state self.old) now drawn.now)) }
        ensures origin { SameOrigin self.old self.new }
    {
        start_due(&mut self.inner, seat, now, drawn)
    }

    /// Enters what a rotator answered to its work, at a reading of the clock. A verdict on a step that is past is
    /// stale, and so is one on a secret or a version that is gone, or that has another value by now. A value of more
    /// than 65,536 bytes is entered as a failure.
    pub fn report(&mut self, seat: u32, now: Moment, verdict: &Verdict<R>) -> Reported
        requires { now.0 ≤ LAST_READING }
        ensures reports { ReportsAs result (report_at (state self.old) now verdict.now.work verdict.now.answer) }
        ensures leaves { Leaves D.Disk self.old.inner self.new.inner seat
            (reported_by result (report_at (state self.old) now verdict.now.work verdict.now.answer)) }
        ensures origin { SameOrigin self.old self.new }
    {
        report(&mut self.inner, seat, now, verdict.work(), verdict.answer())
    }

    /// What always holds of an account. It takes no memory, and does nothing.
    pub fn invariants(&self)
        // Each image of the disk recovers to what was taken at the opening and all entries since, or while the tail is
        // unsure to these, or to these and the entry whose write failed last. Both are lawful: the base is sound, and
        // each entry is legal where it stands.
        ensures on_disk { HoldsOnDisk (all_of self.now) (failed self.now) (D.sight (disk self.now)) }

        // The tail is unsure exactly where there is such an entry.
        ensures unsure { is_unsure self.now ≡ is_some (failed self.now) }

        // The rows are those that the history makes of the base, and they are sound.
        ensures rows { rows self.now ≡ replay (base self.now).rows (entries_in (history self.now)) }
        ensures sound { Sound (rows self.now) }

        // Each claim is of the step that was ready before it.
        ensures claims { ∥ ClaimsReady (base self.now) (history self.now) ∥₁ }

        // Each answer that was entered is one that the rotator may give where it accepts a test. So where each attempt
        // that a recovered secret remembers is one at which its rotator may have accepted the test, this stays so.
        ensures allowed { ∥ EntriesAllowed R.replies self.now.inner ∥₁ }
        ensures vouched { ∥ StayVouched R.replies self.now.inner ∥₁ }

        // A write that failed left its fault in the history.
        ensures told { faults_of (failed self.now) ≤ faults_in (history self.now) }

        // There are at most as many faults in the history as the disk's count rose by since the opening.
        ensures faults { FaultsBound (D.faults (began self.now)) (history self.now) (D.faults (disk self.now)) }
    {
        let _inner = &self.inner;
    }

    /// The value of the version that has the label, in the secret that the SecretId names at a reading of the clock. It
    /// takes no memory.
    pub fn value_of(&self, id: &SecretId, label: &Label, now: Moment) -> Option<&Value>
        requires { now.0 ≤ LAST_READING }
        ensures { option_copied result ≡
            value_labelled (rows self.now) (later (state self.now).last now) id.now label.now }
    {
        let moment = Moment(self.inner.last.0.max(now.0));
        let row = self.inner.table.find(id, moment)?;
        match self.inner.table.find_version(row.serial, None, Some(label)) {
            Some(Found::Version(version)) => version.value.as_ref(),
            Some(Found::None) => None,
            Some(Found::Differ) => None,
            None => None,
        }
    }

    /// The secrets. It takes no memory.
    pub fn table(&self) -> &Table
        ensures { result.now ≡ rows self.now }
    {
        &self.inner.table
    }

    /// How many entries were made in all: before the base, behind it, and since the opening. It takes no memory.
    pub fn entries(&self) -> u64
        ensures { result ≡ (made_of (all_of self.now)).entries }
    {
        entries_count(&self.inner)
    }

    /// What its entries are counted from: the base that was taken from the disk, or where there was none what stands
    /// before all entries. It takes no memory.
    pub fn base(&self) -> &Base
        ensures base { result.now ≡ base_under (taken self.now).base }
        ensures sound { IsSound result.now }
    {
        &self.inner.base
    }

    /// The entry at a place, counted from 0, of those behind the base: those that were taken from the disk and then
    /// those that were made. It takes no memory.
    pub fn entry(&self, place: u64) -> Option<&Entry>
        ensures { option_copied result ≡ slice_get (all_of self.now).entries place }
    {
        entry_at(self.inner.entries.as_slice(), place as usize)
    }

    /// How many doors are open. It takes no memory.
    pub fn open_doors(&self) -> u32
        ensures { result ≡ doors self.now }
    {
        self.doors
    }

    /// Takes one off the open doors, and changes nothing where none is open. It takes no memory.
    pub fn close_door(&mut self)
        ensures { self.new ≡ record self.old { doors = doors self.old - 1 } }
    {
        self.doors = self.doors.saturating_sub(1);
    }

    /// The disk again. It takes no memory.
    pub fn close(self) -> D
        ensures { result ≡ disk self }
    {
        let Account {
            inner,
            doors: _,
            doors_at_opening: _,
            rotator: _,
        } = self;
        let AccountState { store, .. } = inner;
        store.close()
    }
}

/// The entry at a place.
fn entry_at(entries: &[Entry], place: usize) -> Option<&Entry>
    ensures { option_copied result ≡ slice_get entries.now place }
{
    entries.get(place)
}
