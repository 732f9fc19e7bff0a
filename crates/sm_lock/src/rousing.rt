//! The wake-up of who is parked, with the step out that nobody else can make.
ghost use Rattle.std.specs.Prelude.{◌≡◌};
ghost use Rattle.sm_lock.specs.declared.view.QueuePlace.TheVariants.{Out, Rousing};
ghost use Rattle.sm_lock.specs.Rule.{flag_word};
ghost use Rattle.sm_lock.specs.Told.{roused};
ghost use Rattle.sm_lock.specs.View.{turned, ticket as ticket_of};

use crate::board::Place;
use crate::gate::Gate;
use crate::storied::Storied;
use crate::view::View;
use atomic_table::Play;

/// The step out for who has lowered a flag. Only `rouse` makes it.
pub(crate) struct Rouse;

impl<T, O, E> Play<Option<T>, View<O, E>> for Rouse {
    ghost then = { roused };
}

impl<T: Storied> Gate<T> {
    /// Wakes who is parked on the flag that the seat has lowered, and is out.
    pub(crate) fn rouse(&self, place: &mut Place<T>, flag: usize)
        requires gate { place.old.table_id ≡ self.now.board.shared.table_id }
        requires turn { place.old.me.0.turn ≡ Rousing (ticket_of place.old.me.0.turn) }
        requires flag { flag ≡ flag_word (ticket_of place.old.me.0.turn) }
        ensures gate { place.new.table_id ≡ place.old.table_id }
        ensures place { place.new.me ≡ (turned Out place.old.me.0, place.old.me.1) }
    {
        let shared = &self.board.shared;
        shared.wake_one(flag);
        // The load is the step by which the seat is out. What it finds says nothing.
        shared.load::<Rouse>(place, flag);
    }
}
