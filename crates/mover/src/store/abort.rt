// Giving a move up.
ghost use Rattle.std.specs.Prelude.{◌≡◌, ◌<◌, Some, length, slice_get};
ghost use Rattle.mover.specs.Flight.{flight_of, without_flight};
ghost use Rattle.mover.specs.Calls.{StoreAborts};

use super::Store;
use crate::aborted::Aborted;
use crate::flight::Flight;
use page_device::PageDevice;

impl<D: PageDevice<PAGE>, const PAGE: usize> Store<D, PAGE> {
    /// Gives up the move with this number, if it is in flight; all else stays, the other moves too. No call of the
    /// device is made, and no memory taken.
    pub fn move_abort(&mut self, number: u64) -> Aborted
        ensures { StoreAborts D.held number self.old result self.new }
    {
        let Some(at) = self.flights.place_of(number) else {
            return Aborted::StalePlan;
        };
        let _given_up = self.take_flight(at);
        Aborted::Aborted
    }

    // Takes the move at this index out of flight.
    pub(super) fn take_flight(&mut self, at: usize) -> Flight
        requires { at < length self.old.flights }
        ensures was { slice_get self.old.flights at ≡ Some result }
        ensures found { flight_of result.moving.number self.old.flights ≡ Some result }
        ensures taken { self.new ≡ record self.old {
          flights = without_flight result.moving.number self.old.flights;
        } }
    {
        self.flights.take(at)
    }
}
