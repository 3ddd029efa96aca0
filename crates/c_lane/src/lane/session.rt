// Steps of sessions with a lane.
ghost use Rattle.std.specs.Prelude.{◌≡◌, false, ◌==◌, ◌≤◌, length};
ghost use Rattle.c_lane.specs.Lane.{laws_of};
ghost use Rattle.c_lane.specs.Sessions.{SessionSteps};

use super::CLane;
use memcached_session::{Session, SessionDone, SessionTurn, lane_step};
use page_device::PageDevice;
use rand_core::utils::NextWord;
use rriparoo::Rriparoo;
use std::alloc::Global;

impl<D: PageDevice<4096>> CLane<D> {
    /// Takes the next step of a session that asks something of the lane of its key, does that by the next word of admission, writes
    /// its answer to the front of the room, and helps for the room that a store took. A step that asks nothing of a lane takes no
    /// bytes. An answer has at most 2,448 bytes, so none is lost in a room of as many.
    pub fn session_step(
        &mut self,
        alloc: Global,
        session: &mut Session,
        turn: &SessionTurn,
        bytes: &[u8],
        room: &mut [u8],
    ) -> SessionDone
        ensures steps { SessionSteps (laws_of D.honest D.failures D.held) turn.now session.old bytes.now room.old self.old
            result session.new room.new self.new }
        ensures taken { result.taken ≤ length bytes.now }
        ensures answered { result.answered ≤ length room.old }
        ensures most { result.answered ≤ 2448 }
        ensures whole { 2448 ≤ length room.old → (result.outcome == 13) ≡ false }
    {
        let word = self.words.next_word();
        let done = lane_step(
            &mut self.lane,
            alloc,
            session,
            turn.with_word(word),
            bytes,
            &mut self.found,
            room,
        );
        let _helped = self.lane.help(&Rriparoo);
        done
    }
}
