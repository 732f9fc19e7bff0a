//! The bodies of a file's records, where the file's bytes have them.
ghost use Rattle.std.specs.Prelude.{◌≡◌, ◌<◌, ◌≤◌, ◌+◌, [], length, get_or};
ghost use Rattle.sm_journal.specs.Places.{slice_of, bodies_at, AreInside};

use std::alloc::Global;
use std::marker::Model;

/// Where a body stands in a file.
#[derive(Clone, Copy, Debug, PartialEq, Eq)]
pub(crate) struct Place {
    pub start: usize,
    pub length: usize,
}

/// The bodies of a file's records, in order, which contracts see as their list. They stand in the file's bytes, and
/// these are kept once: a body takes no more memory than its place, two machine words.
#[derive(Drop)]
pub struct Records {
    bytes: Vec<u8>,
    places: Vec<Place>,
}

impl Model for Records {
    ghost use Rattle.std.specs.Prelude.{ℕ, List};
    ghost use Rattle.sm_journal.specs.Places.{bodies_at, AreInside};

    ghost Value = { List (List ℕ) };

    ghost view = { λ r. bodies_at r.bytes.items r.places.items };

    ghost invariant = { λ r. AreInside r.bytes.items r.places.items };
}

impl Records {
    /// No records. It takes no memory.
    pub(crate) fn empty(alloc: Global) -> Records
        ensures { result ≡ [] }
    {
        Records {
            bytes: Vec::new(alloc),
            places: Vec::new(alloc),
        }
    }

    /// The bodies at these places of a file. It takes no memory.
    pub(crate) fn over(bytes: Vec<u8>, places: Vec<Place>) -> Records
        requires { AreInside bytes.items places.items }
        ensures { result ≡ bodies_at bytes.items places.items }
    {
        Records { bytes, places }
    }

    /// How many there are. It takes no memory.
    pub fn len(&self) -> usize
        ensures { result ≡ length self.now }
    {
        self.places.len()
    }

    /// The body that so many others stand before. It takes no memory.
    pub fn body(&self, index: usize) -> &[u8]
        requires { index < length self.now }
        ensures { result.now ≡ get_or self.now index [] }
    {
        slice_at(self.bytes.as_slice(), self.places[index])
    }
}

/// The bytes at a place of a file.
fn slice_at(bytes: &[u8], place: Place) -> &[u8]
    requires { place.start + place.length ≤ length bytes.now }
    ensures { result.now ≡ slice_of bytes.now place }
{
    &bytes[place.start..place.start + place.length]
}
