//! The names of the steps, and what each tells its seat.
ghost use Rattle.sm_lock.specs.Boxed.{boxed};
ghost use Rattle.sm_lock.specs.Told.{drew, looked, flagged, looked_again, took, raised, returned, served, saw_flag, lowered, took_in};
ghost use Rattle.sm_lock.specs.View.{beside, spent, counted_up, newcomer, noted};

use crate::storied::Storied;
use crate::view::View;
use atomic_table::{Join, Play, Split};

pub(crate) struct Draw;

impl<T, O, E> Play<Option<T>, View<O, E>> for Draw {
    ghost then = { drew };
}

pub(crate) struct Look;

impl<T, O, E> Play<Option<T>, View<O, E>> for Look {
    ghost then = { looked };
}

pub(crate) struct Flag;

impl<T, O, E> Play<Option<T>, View<O, E>> for Flag {
    ghost then = { flagged };
}

pub(crate) struct LookAgain;

impl<T, O, E> Play<Option<T>, View<O, E>> for LookAgain {
    ghost then = { looked_again };
}

pub(crate) struct Take;

impl<T: Storied> Play<Option<Box<T>>, View<T::Origin, T::Entry>> for Take {
    ghost then = { took (boxed T.origin) (boxed T.story) };
}

pub(crate) struct Raise;

impl<T: Storied> Play<Option<Box<T>>, View<T::Origin, T::Entry>> for Raise {
    ghost then = { raised (boxed T.story) };
}

pub(crate) struct Return;

impl<T, O, E> Play<Option<T>, View<O, E>> for Return {
    ghost then = { returned };
}

pub(crate) struct Serve;

impl<T, O, E> Play<Option<T>, View<O, E>> for Serve {
    ghost then = { served };
}

pub(crate) struct SeeFlag;

impl<T, O, E> Play<Option<T>, View<O, E>> for SeeFlag {
    ghost then = { saw_flag };
}

pub(crate) struct Lower;

impl<T, O, E> Play<Option<T>, View<O, E>> for Lower {
    ghost then = { lowered };
}

pub(crate) struct TakeIn;

impl<T, O, E> Play<Option<T>, View<O, E>> for TakeIn {
    ghost then = { took_in };
}

/// A new seat, with the builder's next number.
pub(crate) struct Number;

impl<O, E> Split<View<O, E>> for Number {
    ghost left = { counted_up };

    ghost right = { newcomer };
}

/// A note, with a copy of the list.
pub(crate) struct Copy;

impl<O, E> Split<View<O, E>> for Copy {
    ghost left = { λ v. v };

    ghost right = { noted };
}

pub(crate) struct Beside;

impl<O, E> Join<View<O, E>> for Beside {
    ghost both = { beside };

    ghost spent = { spent };
}
