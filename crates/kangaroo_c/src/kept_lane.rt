// The lane of a place.
ghost use Rattle.std.specs.Prelude.{◌≡◌, false, ◌≤◌, ◌==◌, length};
ghost use Rattle.c_lane.specs.Sessions.{SessionSteps};
ghost use Rattle.turn_register.specs.Following.{last_after};

use crate::device::MappedDevice;
use c_lane::{CLane, LaneHome};
use memcached_session::{Session, SessionDone, SessionTurn};
use std::alloc::Global;
use turn_register::{LastTurn, RegisterTurn};

/// The lane of a place, over the pages that C lends it; which lane it is, and the last turn that it was given.
#[derive(Drop)]
pub struct KeptLane {
    pub lane: CLane<MappedDevice<4096>>,
    pub home: LaneHome,
    pub last: LastTurn,
}

impl KeptLane {
    ghost use Rattle.kangaroo_c.specs.Telling.{page_laws};
    ghost use Rattle.kangaroo_c.specs.Turning.{refusal_of, given_of};

    // Why the lane refuses a turn, if it does.
    pub(crate) fn refusal(&self, turn: &RegisterTurn) -> Option<u32>
        ensures { result ≡ refusal_of self.now.home self.now.last turn.now }
    {
        if turn.lane != self.home.number {
            Some(2)
        } else if !self.last.is_followed_by(turn) {
            Some(3)
        } else {
            None
        }
    }

    // Takes the next step of a session by a turn, which is the last one then.
    pub(crate) fn step(
        &mut self,
        alloc: Global,
        session: &mut Session,
        turn: &RegisterTurn,
        bytes: &[u8],
        room: &mut [u8],
    ) -> SessionDone
        ensures steps { SessionSteps page_laws (given_of turn.now) session.old bytes.now room.old self.old.lane
            result session.new room.new self.new.lane }
        ensures home { self.new.home ≡ self.old.home }
        ensures last { self.new.last ≡ last_after self.old.last turn.now }
        ensures taken { result.taken ≤ length bytes.now }
        ensures answered { result.answered ≤ length room.old }
        ensures most { result.answered ≤ 2448 }
        ensures whole { 2448 ≤ length room.old → (result.outcome == 13) ≡ false }
    {
        let given = SessionTurn {
            moment: turn.moment,
            flushed: turn.flushed,
            cas: turn.cas,
            refuses: 0,
            reserved: 0,
        };
        self.last = self.last.after(turn);
        self.lane.session_step(alloc, session, &given, bytes, room)
    }
}
