//! Which of the connections of a worker is first by a number that each may have.
ghost use Rattle.std.specs.Prelude.{◌≡◌};
ghost use Rattle.std.specs.Fn.{FnReturnsAt};
ghost use Rattle.sm_visits.specs.Least.{lesser_of, IsFirstLeast};

use crate::connection_table::ConnectionTable;

impl<C> ConnectionTable<C> {
    /// The place of the connection with the least key, of those that are here and have one; of several the first by
    /// their places.
    pub fn first_least<F: Fn(&C) -> Option<u128>>(&self, key: F) -> Option<usize>
        requires { F.IsAlwaysCallable key }
        ensures { IsFirstLeast (FnReturnsAt F.Fn key) self.now result }
    {
        let mut least = None;
        for place in 0..self.end() {
            match self.get(place) {
                Some(connection) => least = lesser(least, place, key_of(&key, connection)),
                None => {}
            }
        }
        match least {
            Some((place, _)) => Some(place),
            None => None,
        }
    }
}

/// What the key of a connection is.
fn key_of<C, F: Fn(&C) -> Option<u128>>(key: &F, connection: &C) -> Option<u128>
    requires { F.IsAlwaysCallable key.now }
    ensures { FnReturnsAt F.Fn key.now connection.now result }
{
    key(connection)
}

/// The place with the lesser key, of the one so far and a later one.
fn lesser(least: Option<(usize, u128)>, place: usize, key: Option<u128>) -> Option<(usize, u128)>
    ensures { result ≡ lesser_of least place key }
{
    match key {
        Some(found) => match least {
            Some((first, before)) => {
                if found < before {
                    Some((place, found))
                } else {
                    Some((first, before))
                }
            }
            None => Some((place, found)),
        },
        None => least,
    }
}
