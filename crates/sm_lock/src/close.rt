//! Closing the lock.
ghost use Rattle.std.specs.Prelude.{◌≡◌, [], ◌∷◌, ◌++◌, All, Contains, map, length, drop, Some};
ghost use Rattle.sm_lock.specs.Story.{Grows};
ghost use Rattle.sm_lock.specs.SeatStates.{Outside};
ghost use Rattle.sm_lock.specs.Handles.{built_with, seats, number, seen, IsIn, IsSeatOf, StandsWithItsSeat};

use crate::board::Place;
use crate::gate::Gate;
use crate::pass::Pass;
use crate::storied::Storied;
use sm_base::List;

impl<T: Storied> Gate<T> {
    /// Takes all passes, and gives the value. Its list begins with what each pass has seen, and each entry after the
    /// list that was built in was made by one of the passes, which has seen it. It takes no memory.
    pub fn close(self, passes: List<Pass<T>>) -> T
        requires gate { All (IsIn self) passes }
        requires whole { length passes ≡ seats self }
        ensures origin { T.origin result ≡ T.origin (built_with self) }
        ensures built { T.story result ≡ T.story (built_with self)
            ++ drop (length (T.story (built_with self))) (T.story result) }
        ensures seen { All (λ pass. Grows (number pass ∷ []) (seen pass) (T.story result)) passes }
        ensures numbers { All (λ entry. Contains (map number passes) entry.0)
            (drop (length (T.story (built_with self))) (T.story result)) }
        ensures stands { All (StandsWithItsSeat (T.story (built_with self)) passes)
            (drop (length (T.story (built_with self))) (T.story result)) }
    {
        let mut others = passes.into_vec();
        let Some(first) = others.pop() else {
            unreachable!()
        };
        let place = self.gather(first, others);
        let Gate { board, seats: _ } = self;
        let mut closed = board.close_with(place);
        let Some(value) = closed.take(0) else {
            unreachable!()
        };
        closed.free();
        Box::into_inner(value)
    }

    /// One place, with all that these passes knew and all their numbers.
    fn gather(&self, first: Pass<T>, others: Vec<Pass<T>>) -> Place<T>
        requires { IsIn self.now first × All (IsIn self.now) others.items }
        ensures gate { IsSeatOf T.origin T.story self.now result }
        ensures place { Outside (number first ∷ map number others.items) result.me }
        ensures first { Grows (number first ∷ []) (seen first) result.me.0.own.seen }
        ensures others { All (λ pass. Grows (number pass ∷ []) (seen pass) result.me.0.own.seen) others.items }
    {
        let Pass {
            number: _,
            count: _,
            mut place,
        } = first;
        for pass in others {
            let Pass {
                number: _,
                count: _,
                place: other,
            } = pass;
            self.join(&mut place, other);
        }
        place
    }
}
