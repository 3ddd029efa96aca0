// The moves in flight.
ghost use Rattle.std.specs.Prelude.{◌≡◌};

use crate::flight::Flight;
use std::alloc::{AllocError, Global};
use std::marker::Model;

/// The most moves of a lane that are in flight at once.
pub(crate) const MAX_FLIGHTS: usize = 8;

/// The moves in flight, in the order in which they began. All room is taken when it is opened.
#[derive(Drop)]
pub(crate) struct Flights {
    flights: Vec<Flight>,
    // The set of each.
    sets: Vec<u32>,
}

impl Model for Flights {
    ghost use Rattle.std.specs.Prelude.{List};
    ghost use Rattle.mover.specs.declared.flight.Flight.{Flight};
    ghost use Rattle.mover.specs.Flight.{HasRoomFor};

    ghost Value = { List Flight };

    ghost view = { λ list. list.flights.items };

    ghost invariant = { λ list. HasRoomFor list.flights list.sets };
}

impl Flights {
    ghost use Rattle.std.specs.Prelude.{◌≡◌, ◌<◌, [], ◌∷◌, ◌++◌, length, map, remove, slice_get, Some, None, IfOk, IfSome, IfNone};
    ghost use Rattle.mover.specs.Flight.{most_flights, flight_of, sets_in_flight, flight_struck};

    /// None in flight, with room for as many as may be, or `AllocError` if memory was refused.
    pub(crate) fn open(alloc: Global) -> Result<Flights, AllocError>
        ensures { IfOk result (λ flights. flights ≡ []) }
    {
        let flights = Vec::with_capacity(alloc, MAX_FLIGHTS)?;
        let sets = Vec::with_capacity(alloc, MAX_FLIGHTS)?;
        Ok(Flights { flights, sets })
    }

    /// How many there are.
    pub(crate) fn len(&self) -> usize
        ensures { result ≡ length self.now }
    {
        self.flights.len()
    }

    /// The set of each.
    pub(crate) fn sets(&self) -> &[u32]
        ensures { result.now ≡ sets_in_flight self.now }
    {
        &self.sets
    }

    /// Where the move with this number stands, if it is in flight.
    pub(crate) fn place_of(&self, number: u64) -> Option<usize>
        ensures within { IfSome result (λ at. at < length self.now) }
        ensures found { IfSome result (λ at. flight_of number self.now ≡ slice_get self.now at) }
        ensures missed { IfNone result (flight_of number self.now ≡ None) }
    {
        for at in 0..self.flights.len() {
            if self.flights[at].moving.number == number {
                return Some(at);
            }
        }
        None
    }

    /// The move at this place.
    pub(crate) fn at(&self, at: usize) -> &Flight
        requires { at < length self.now }
        ensures { slice_get self.now at ≡ Some result.now }
    {
        &self.flights[at]
    }

    /// Puts a move after the others.
    pub(crate) fn push(&mut self, flight: Flight)
        requires { length self.old < most_flights }
        ensures { self.new ≡ self.old ++ flight ∷ [] }
    {
        self.sets.push_reserved(flight.moving.set);
        self.flights.push_reserved(flight);
    }

    /// Takes the move at this place out; the others keep their order.
    pub(crate) fn take(&mut self, at: usize) -> Flight
        requires { at < length self.old }
        ensures its { slice_get self.old at ≡ Some result }
        ensures left { self.new ≡ remove self.old at }
    {
        self.sets.remove(at);
        self.flights.remove(at)
    }

    /// A key of this hash is struck in each of them.
    pub(crate) fn strike(&mut self, hash: u64)
        ensures { self.new ≡ map (flight_struck hash) self.old }
    {
        for flight in self.flights.iter_mut() {
            flight.strike(hash);
        }
    }
}
