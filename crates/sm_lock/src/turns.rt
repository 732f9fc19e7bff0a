//! Entering and leaving.
ghost use Rattle.std.specs.Prelude.{◌≡◌, ◌<◌, ◌⊎◌, ◌^◌, [], ◌∷◌, ◌++◌, length, Some, None};
ghost use Rattle.sm_lock.specs.declared.view.QueuePlace.TheVariants.{Out, Inside, Holding};
ghost use Rattle.sm_lock.specs.Story.{Grows};
ghost use Rattle.sm_lock.specs.SeatStates.{AddsOne};
ghost use Rattle.sm_lock.specs.View.{turned, saw, ticket as ticket_of};
ghost use Rattle.sm_lock.specs.Handles.{built_with, number, seen, mine, holder, entered, holder_made, IsIn, IsOutOf, IsSeatOf};

use crate::board::{COUNT, Place, SERVING, TICKET};
use crate::gate::Gate;
use crate::pass::{Held, Pass, Stay};
use crate::plays::{Draw, Raise, Return, Serve, Take};
use crate::storied::Storied;
use std::sync::Wait;

impl<T: Storied> Gate<T> {
    /// Waits for the value. It takes no memory.
    pub fn enter<R: Wait>(&self, rt: &R, pass: Pass<T>) -> Held<T>
        requires { IsIn self.now pass }
        ensures gate { IsOutOf self.now result }
        ensures holder { holder result ≡ number pass }
        ensures origin { T.origin result.value.value ≡ T.origin (built_with self.now) }
        ensures entered { entered result ≡ T.story result.value.value }
        ensures seen { Grows (number pass ∷ []) (seen pass) (T.story result.value.value) }
        ensures mine { holder_made result ≡ mine pass }
    {
        let Pass {
            number,
            count: _,
            mut place,
        } = pass;
        self.approach();
        let ticket = self.board.shared.fetch_add::<Draw>(&mut place, TICKET, 1);
        self.wait_for(rt, &mut place, ticket);
        let (value, count) = self.take(&mut place);
        Held {
            value,
            stay: Stay {
                number,
                count,
                place,
            },
        }
    }

    /// Takes the value out of its slot, with the number of its entries.
    fn take(&self, place: &mut Place<T>) -> (Box<T>, u64)
        requires gate { IsSeatOf T.origin T.story self.now place.old }
        requires turn { (place.old.me.0.turn ≡ Inside (ticket_of place.old.me.0.turn)) × (place.old.me.1 ≡ []) }
        ensures gate { place.new.table_id ≡ place.old.table_id }
        ensures place { place.new.me
            ≡ (turned (Holding (ticket_of place.old.me.0.turn)) place.old.me.0, (0, None) ∷ []) }
        ensures value { (T.story result.0.value ≡ place.old.me.0.own.seen)
            × (T.origin result.0.value ≡ T.origin (built_with self.now)) }
        ensures count { result.1 ≡ length place.old.me.0.own.seen }
    {
        let shared = &self.board.shared;
        let count = shared.load::<Take>(place, COUNT);
        let Some(value) = shared.exchange(place, 0, None) else {
            unreachable!()
        };
        (value, count)
    }

    /// Gives the value back, with at most one entry more, which is this seat's. It takes no memory.
    pub fn leave(&self, held: Held<T>) -> Pass<T>
        requires gate { IsOutOf self.now held }
        requires origin { T.origin held.value.value ≡ T.origin (built_with self.now) }
        requires entry { (T.story held.value.value ≡ entered held)
            ⊎ ((entry : T.Entry) × (T.story held.value.value ≡ entered held ++ (holder held, entry) ∷ [])) }
        ensures gate { IsIn self.now result }
        ensures number { number result ≡ holder held }
        ensures seen { seen result ≡ T.story held.value.value }
        ensures kept { T.story held.value.value ≡ entered held → mine result ≡ holder_made held }
        ensures added { (entry : T.Entry) → T.story held.value.value ≡ entered held ++ (holder held, entry) ∷ []
            → mine result ≡ holder_made held ++ entry ∷ [] }
    {
        let Held { value, stay } = held;
        let Stay {
            number,
            count: before,
            mut place,
        } = stay;
        let count = value.length();
        self.put(&mut place, value, count - before);
        Pass {
            number,
            count,
            place,
        }
    }

    /// Puts the value back into its slot with so many more entries, and lets the next one in.
    fn put(&self, place: &mut Place<T>, value: Box<T>, more: u64)
        requires gate { IsSeatOf T.origin T.story self.now place.old }
        requires turn { (place.old.me.0.turn ≡ Holding (ticket_of place.old.me.0.turn))
            × (place.old.me.1 ≡ (0, None) ∷ []) }
        requires value { (T.origin value.value ≡ T.origin (built_with self.now))
            × (length (T.story value.value) < 2 ^ 64) }
        requires more { AddsOne place.old.me.0 (T.story value.value) more }
        ensures gate { place.new.table_id ≡ place.old.table_id }
        ensures place { place.new.me ≡ (turned Out (saw (T.story value.value) place.old.me.0), []) }
    {
        let shared = &self.board.shared;
        let before = shared.exchange(place, 0, Some(value));
        let None = before else { unreachable!() };
        shared.fetch_add::<Raise>(place, COUNT, more);
        shared.load::<Return>(place, COUNT);
        let served = shared.fetch_add::<Serve>(place, SERVING, 1);
        self.wake(place, served.wrapping_add(1));
    }
}
