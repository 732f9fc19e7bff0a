//! What is passed from hand to hand: passes, notes and the value while somebody has it.
ghost use Rattle.std.specs.Prelude.{◌≡◌, [], ◌∷◌, length, take};
ghost use Rattle.sm_lock.specs.SeatStates.{Outside, Carries};

use crate::board::Place;
use crate::storied::Storied;

/// The right to enter, under one seat's number. It knows the list that its owner has seen.
#[derive(Drop)]
pub struct Pass<T: Storied> {
    pub(crate) number: u32,
    pub(crate) count: u64,
    pub(crate) place: Place<T>,
    pub ghost rests: { Outside (number ∷ []) place.me },
    pub ghost counted: { count ≡ length place.me.0.own.seen },
    pub ghost begins: { take (length place.me.0.built) place.me.0.own.seen ≡ place.me.0.built },
}

/// What the owner of a pass had seen. It may go to another thread.
#[derive(Drop)]
pub struct Note<T: Storied> {
    pub(crate) count: u64,
    pub(crate) place: Place<T>,
    pub ghost notes: { Outside [] place.me },
    pub ghost counted: { count ≡ length place.me.0.own.seen },
    pub ghost begins: { take (length place.me.0.built) place.me.0.own.seen ≡ place.me.0.built },
}

/// What a pass is while its owner has the value.
pub struct Stay<T: Storied> {
    pub(crate) number: u32,
    pub(crate) count: u64,
    pub(crate) place: Place<T>,
    pub ghost carries: { Carries number place.me },
    pub ghost counted: { count ≡ length place.me.0.own.seen },
    pub ghost begins: { take (length place.me.0.built) place.me.0.own.seen ≡ place.me.0.built },
}

/// The value, out of its lock. It has no `Drop`, so it ends in `Gate::leave`.
pub struct Held<T: Storied> {
    pub(crate) value: Box<T>,
    pub(crate) stay: Stay<T>,
}
