// A step with the lane of its key.
ghost use Rattle.std.specs.Prelude.{◌≡◌, ℕ, true, false, ◌==◌, ◌≤◌, length};
ghost use Rattle.memcached_session.specs.Stepping.{LaneSteps};
ghost use Rattle.memcached_session.specs.Wanting.{want_of, is_keyed, draws};
ghost use Rattle.memcached_session.specs.Framing.{frame_of};

use crate::done::SessionDone;
use crate::keyed::Keyed;
use crate::lane_turn::LaneTurn;
use crate::performing::perform;
use crate::session::Session;
use crate::settling::settle;
use itoa::Buffer;
use page_device::PageDevice;
use record_pages::ValueBuffer;
use service_lane::ServiceLane;
use std::alloc::Global;

/// Takes the next step of a session that asks something of the lane of its key, does that, and writes its answer to the front of the
/// room. If it asks nothing of a lane, nothing is done. The word of admission decides whether the pair that leaves memory for a
/// store enters the log.
///
/// An answer has at most 2,448 bytes, so none is lost in a room of as many. One that is longer than the room is lost, and then the
/// session is to be closed; what was asked of the lane is done all the same. No memory is asked for the answer. If something is
/// asked of a lane, a step takes a byte or more. A step whose `Want::Lane` has no `gives_number` is the same whatever number the
/// turn has.
pub fn lane_step<D: PageDevice<PAGE>, const PAGE: usize>(
    lane: &mut ServiceLane<D, PAGE>,
    alloc: Global,
    session: &mut Session,
    turn: LaneTurn,
    bytes: &[u8],
    found: &mut ValueBuffer,
    room: &mut [u8],
) -> SessionDone
    ensures steps { LaneSteps (frame_of PAGE D.honest D.failures D.held turn.command turn.cas)
        session.old bytes.now room.old lane.old result session.new room.new lane.new }
    ensures unnumbered { draws (want_of session.old bytes.now) ≡ false → (cas : ℕ) →
        LaneSteps (frame_of PAGE D.honest D.failures D.held turn.command cas)
        session.old bytes.now room.old lane.old result session.new room.new lane.new }
    ensures taken { result.taken ≤ length bytes.now }
    ensures answered { result.answered ≤ length room.old }
    ensures most { result.answered ≤ 2448 }
    ensures whole { 2448 ≤ length room.old → (result.outcome == 13) ≡ false }
    ensures some { is_keyed (want_of session.old bytes.now) ≡ true → 1 ≤ result.taken }
{
    let mut reader = session.reader();
    let step = reader.take(bytes);
    match Keyed::of(&step.event) {
        Some(keyed) => {
            let mut digits = Buffer::new();
            let answered = perform(lane, alloc, keyed, turn, found, &mut digits);
            settle(&step, reader.state, &answered, session, room)
        }
        None => SessionDone::nothing(),
    }
}
