//! Waiting for a ticket, and waking who waits for it.
//!
//! Tickets are served in their order, also while the thread whose turn it is doesn't run: where more threads come than
//! there are processors, each turn would cost a sleep. So who comes first looks for a while whether nobody is at the
//! lock, and lets other threads run meanwhile. It draws a ticket then, or after so many looks: nobody is passed over
//! for ever.
//!
//! No wake-up is lost. Who waits raises its ticket's flag, looks whether the ticket is served, and parks only while
//! the flag is up. Who leaves serves the next ticket, and then looks at its flag: where that is up, it lowers it and
//! wakes. All steps stand in one order. If the flag was raised before the leave looked at it, the leave wakes. If not,
//! the ticket was served before the flag was raised, and who waits sees that before it parks. The flag is lowered
//! before the wake-up, so who comes to park in between finds it down, and the system doesn't let it sleep. One thread
//! at most parks on a flag, since there are as many flags as tickets may be out, so waking one wakes the right one.
//!
//! A leave that was held up may lower the flag of a later ticket with the same remainder. It wakes who has that one,
//! which raises the flag again and looks again.
ghost use Rattle.std.specs.Prelude.{◌≡◌, ◌%◌, ◌^◌};
ghost use Rattle.sm_lock.specs.declared.view.QueuePlace.TheVariants.{Out, Waiting, Parked, Inside, Waking};
ghost use Rattle.sm_lock.specs.Story.{Grows};
ghost use Rattle.sm_lock.specs.View.{turned, saw, ticket as ticket_of};
ghost use Rattle.sm_lock.specs.Rule.{flag_word};

use crate::board::{DOWN, FIRST_FLAG, FLAGS, Place, SERVING, TICKET, UP};
use crate::gate::Gate;
use crate::plays::{Flag, Look, LookAgain, Lower, SeeFlag};
use crate::storied::Storied;
use crossbeam_utils::Backoff;
use std::hint;
use std::sync::Wait;

/// How often one that comes looks whether nobody is at the lock before it draws a ticket: the first seven times with
/// pauses of the processor in between, then with other threads let run.
const APPROACHES: u32 = 40;

/// How often the next in line looks before it parks: about as long as parking and being woken takes.
const LOOKS: u32 = 100;

/// The word that has a ticket's flag.
fn flag_of(ticket: u64) -> usize
    ensures { result ≡ flag_word ticket }
{
    FIRST_FLAG + (ticket % FLAGS as u64) as usize
}

impl<T: Storied> Gate<T> {
    /// Leaves the lock to those who are at it for a while. It tells nothing.
    pub(crate) fn approach(&self) {
        let backoff = Backoff::new();
        for _ in 0..APPROACHES {
            if self.board.shared.peek(TICKET) == self.board.shared.peek(SERVING) {
                return;
            }
            backoff.snooze();
        }
    }

    /// Waits until the ticket is served.
    pub(crate) fn wait_for<R: Wait>(&self, rt: &R, place: &mut Place<T>, ticket: u64)
        requires gate { place.old.table_id ≡ self.now.board.shared.table_id }
        requires turn { (place.old.me.0.turn ≡ Waiting (ticket_of place.old.me.0.turn))
            × (ticket ≡ ticket_of place.old.me.0.turn % 2 ^ 64) }
        ensures gate { place.new.table_id ≡ place.old.table_id }
        ensures place { place.new.me ≡ (
          turned (Inside (ticket_of place.old.me.0.turn))
              (saw place.new.me.0.own.seen place.old.me.0),
          place.old.me.1,
        ) }
        ensures seen { Grows place.old.me.0.own.numbers place.old.me.0.own.seen place.new.me.0.own.seen }
    {
        self.watch(ticket);
        let serving = self.board.shared.load::<Look>(place, SERVING);
        if serving == ticket {
            return;
        }
        self.park_until_served(rt, place, ticket);
    }

    /// Looks so often while the ticket is the next one, so that a turn that goes from one running thread to another
    /// needs no call of the system. It tells nothing.
    fn watch(&self, ticket: u64) {
        for _ in 0..LOOKS {
            let serving = self.board.shared.peek(SERVING);
            if ticket.wrapping_sub(serving) != 1 {
                return;
            }
            hint::spin_loop();
        }
    }

    /// Parks until the ticket is served, each time with its flag raised first.
    fn park_until_served<R: Wait>(&self, rt: &R, place: &mut Place<T>, ticket: u64)
        requires gate { place.old.table_id ≡ self.now.board.shared.table_id }
        requires turn { (place.old.me.0.turn ≡ Waiting (ticket_of place.old.me.0.turn))
            × (ticket ≡ ticket_of place.old.me.0.turn % 2 ^ 64) }
        ensures gate { place.new.table_id ≡ place.old.table_id }
        ensures place { place.new.me ≡ (
          turned (Inside (ticket_of place.old.me.0.turn))
              (saw place.new.me.0.own.seen place.old.me.0),
          place.old.me.1,
        ) }
        ensures seen { Grows place.old.me.0.own.numbers place.old.me.0.own.seen place.new.me.0.own.seen }
    {
        let flag = flag_of(ticket);
        let shared = &self.board.shared;
        for _ in rt.forever() {
            shared.store::<Flag>(place, flag, UP);
            let again = shared.load::<LookAgain>(place, SERVING);
            if again == ticket {
                return;
            }
            self.park(rt, place, flag);
        }
        unreachable!()
    }

    /// Sleeps while the flag is up. It may also return for no reason.
    fn park<R: Wait>(&self, rt: &R, place: &Place<T>, flag: usize)
        requires turn { place.now.me.0.turn ≡ Parked (ticket_of place.now.me.0.turn) }
        requires flag { flag ≡ flag_word (ticket_of place.now.me.0.turn) }
    {
        self.board.shared.park(rt, flag, UP as u32);
    }

    /// Wakes who has the ticket that was served, if its flag is up.
    pub(crate) fn wake(&self, place: &mut Place<T>, ticket: u64)
        requires gate { place.old.table_id ≡ self.now.board.shared.table_id }
        requires turn { (place.old.me.0.turn ≡ Waking (ticket_of place.old.me.0.turn))
            × (ticket ≡ ticket_of place.old.me.0.turn % 2 ^ 64) }
        ensures gate { place.new.table_id ≡ place.old.table_id }
        ensures place { place.new.me ≡ (turned Out place.old.me.0, place.old.me.1) }
    {
        let flag = flag_of(ticket);
        let shared = &self.board.shared;
        if shared.load::<SeeFlag>(place, flag) == DOWN {
            return;
        }
        shared.store::<Lower>(place, flag, DOWN);
        self.rouse(place, flag);
    }
}
