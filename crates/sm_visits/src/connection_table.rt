//! The connections of one worker, each at a place of its own.
ghost use Rattle.std.specs.Prelude.{◌≡◌, ◌+◌, ◌≤◌, IfOk, OnOk, OnErr, [], option_copied};
ghost use Rattle.std.specs.Option.{option_copied_mut};
ghost use Rattle.std.specs.Borrow.{sem};
ghost use Rattle.slab.specs.Slab.{slab_len, HasRoomFor};
ghost use Rattle.sm_visits.specs.Connections.{here, HasPlacesBelow, Came, HandsOut, with_taken_back, with_removed};
ghost use Rattle.sm_visits.specs.Lends.{lends_here};

use slab::Slab;
use sm_base::NoMemory;
use std::alloc::Global;
use std::marker::Model;

/// The connections of one worker. Each has a place, from the moment that it came until it is removed. It may be handed
/// out for a visit, and keeps its place meanwhile.
#[derive(Drop)]
pub struct ConnectionTable<C> {
    /// The connections by their places. One that was handed out has left its place empty.
    places: Slab<Option<C>>,
}

/// A connection that was handed out, with the place that it is put back to. Only a table makes one.
#[derive(Drop)]
pub struct HandedOut<C> {
    place: usize,
    pub connection: C,
}

impl<C> HandedOut<C> {
    /// Its place.
    pub fn place(&self) -> usize
        ensures { result ≡ self.now.place }
    {
        self.place
    }
}

impl<C> Model for ConnectionTable<C> {
    ghost use Rattle.std.specs.Coded.{coded_option};
    ghost use Rattle.slab.specs.Slab.{slab_code};
    ghost use Rattle.sm_visits.specs.Connections.{Table};

    ghost Value = { Table C };

    ghost coded = { slab_code (coded_option C.code) };

    ghost view = { λ t. t.places };
}

impl<C> ConnectionTable<C> {
    /// A table without connections. It takes no memory.
    pub fn new(alloc: Global) -> ConnectionTable<C>
        ensures { result.slots ≡ [] }
    {
        ConnectionTable {
            places: Slab::new(alloc),
        }
    }

    /// How many connections have a place.
    pub fn len(&self) -> usize
        ensures { result ≡ slab_len self.now }
    {
        self.places.len()
    }

    /// A number above each place that a connection has. So a walk over the places below it meets each connection.
    pub fn end(&self) -> usize
        ensures { HasPlacesBelow self.now result }
    {
        self.places.capacity()
    }

    /// Takes the memory for one connection more, and gives the place that it will have. Without memory no place
    /// changes.
    pub fn prepare(&mut self) -> Result<usize, NoMemory>
        ensures place { IfOk result (λ place. place ≡ self.new.vacant_key) }
        ensures room { OnOk result (HasRoomFor self.new 1) }
        ensures same { self.new ≡ record self.old { capacity = self.new.capacity } }
    {
        self.places.reserve(1)?;
        Ok(self.places.vacant_key())
    }

    /// Gives a connection that came its place, which no other has: the one that `prepare` gave.
    pub fn insert(&mut self, connection: C) -> usize
        requires { HasRoomFor self.old 1 }
        ensures place { result ≡ self.old.vacant_key }
        ensures came { Came self.old result connection self.new }
    {
        self.places.insert_reserved(Some(connection))
    }

    /// The connection at a place, where it is not handed out.
    pub fn get(&self, place: usize) -> Option<&C>
        ensures { option_copied result ≡ here self.now place }
    {
        self.places.get(place)?.as_ref()
    }

    /// The connection at a place, to be changed there, where it is not handed out.
    pub fn get_mut(&mut self, place: usize) -> Option<&mut C>
        ensures* writes_back { sem 𝓛 (lends_here C.row self.entry place result) }
        ensures value { option_copied_mut result ≡ here self.old place }
    {
        self.places.get_mut(place)?.as_mut()
    }

    /// Hands out the connection at a place, where it is not handed out already.
    pub fn take(&mut self, place: usize) -> Option<HandedOut<C>>
        ensures { HandsOut self.old place result self.new }
    {
        let connection = self.places.get_mut(place)?.take()?;
        Some(HandedOut { place, connection })
    }

    /// Takes a connection back to its place.
    pub fn put_back(&mut self, handed: HandedOut<C>)
    where
        C: Drop,
        ensures { self.new ≡ with_taken_back self.old handed.place handed.connection }
    {
        let HandedOut { place, connection } = handed;
        if let Some(slot) = self.places.get_mut(place)
            && slot.is_none()
        {
            *slot = Some(connection);
        }
    }

    /// Takes a connection that was handed out out of the table. Its place is free from then on.
    pub fn remove(&mut self, handed: HandedOut<C>) -> C
    where
        C: Drop,
        ensures same { result ≡ handed.connection }
        ensures gone { self.new ≡ with_removed self.old handed.place }
    {
        let HandedOut { place, connection } = handed;
        if let Some(None) = self.places.get(place) {
            self.places.try_remove(place);
        }
        connection
    }
}
