//! Telling another owner of a pass what one has seen.
ghost use Rattle.std.specs.Prelude.{◌≡◌, [], ◌∷◌};
ghost use Rattle.sm_lock.specs.declared.view.QueuePlace.TheVariants.{Out};
ghost use Rattle.sm_lock.specs.Story.{Grows};
ghost use Rattle.sm_lock.specs.View.{nothing, beside, merged};
ghost use Rattle.sm_lock.specs.Handles.{number, seen, mine, noted, IsIn, IsNoteOf, IsSeatOf};

use crate::board::{Place, TICKET};
use crate::gate::Gate;
use crate::pass::{Note, Pass};
use crate::plays::{Beside, Copy, TakeIn};
use crate::storied::Storied;

impl<T: Storied> Gate<T> {
    /// A note of the list that the pass has seen. It takes no memory.
    pub fn tell(&self, pass: Pass<T>) -> (Pass<T>, Note<T>)
        requires { IsIn self.now pass }
        ensures gate { IsIn self.now result.0 × IsNoteOf self.now result.1 }
        ensures pass { (number result.0 ≡ number pass) × (seen result.0 ≡ seen pass) × (mine result.0 ≡ mine pass) }
        ensures note { noted result.1 ≡ seen pass }
    {
        let Pass {
            number,
            count,
            mut place,
        } = pass;
        let copy = self.board.shared.split_seat::<Copy>(&mut place);
        (
            Pass {
                number,
                count,
                place,
            },
            Note { count, place: copy },
        )
    }

    /// Takes a note in: afterwards the pass has seen what the note has too. It takes no memory.
    pub fn hear(&self, pass: Pass<T>, note: Note<T>) -> Pass<T>
        requires pass { IsIn self.now pass }
        requires note { IsNoteOf self.now note }
        ensures gate { IsIn self.now result }
        ensures number { number result ≡ number pass }
        ensures seen { Grows (number pass ∷ []) (seen pass) (seen result) }
        ensures heard { Grows [] (noted note) (seen result) }
        ensures mine { mine result ≡ mine pass }
    {
        let Pass {
            number,
            count,
            mut place,
        } = pass;
        let Note {
            count: told,
            place: other,
        } = note;
        self.join(&mut place, other);
        Pass {
            number,
            count: count.max(told),
            place,
        }
    }

    /// Takes in what another seat knew, and the numbers that it had.
    pub(crate) fn join(&self, place: &mut Place<T>, other: Place<T>)
        requires gate { IsSeatOf T.origin T.story self.now place.old × IsSeatOf T.origin T.story self.now other }
        requires place { (place.old.me.0.turn ≡ Out) × (place.old.me.0.told ≡ nothing) }
        requires other { (other.me.0.turn ≡ Out) × (other.me.0.told ≡ nothing) × (other.me.0.given ≡ 0)
            × (other.me.1 ≡ []) }
        ensures gate { place.new.table_id ≡ place.old.table_id }
        ensures place { place.new.me ≡ (merged (beside place.old.me.0 other.me.0), place.old.me.1) }
        ensures seen { Grows place.old.me.0.own.numbers place.old.me.0.own.seen place.new.me.0.own.seen }
        ensures heard { Grows other.me.0.own.numbers other.me.0.own.seen place.new.me.0.own.seen }
    {
        let shared = &self.board.shared;
        shared.join_seat::<Beside>(place, other);
        shared.load::<TakeIn>(place, TICKET);
    }
}
