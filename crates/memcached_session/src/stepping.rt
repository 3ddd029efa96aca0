// A step without a lane.
ghost use Rattle.std.specs.Prelude.{◌≡◌, not, true, false, ◌==◌, ◌≤◌, length};
ghost use Rattle.memcached_session.specs.Stepping.{Steps};
ghost use Rattle.memcached_session.specs.Wanting.{want_of, is_alone};

use crate::alone::answer_alone;
use crate::done::SessionDone;
use crate::keyed::Keyed;
use crate::session::Session;
use crate::settling::settle;
use crate::turn::SessionTurn;

/// Takes the next step of a session that asks nothing of a lane, and writes its answer to the front of the room. If it asks something
/// of one, nothing is done.
///
/// An answer that is longer than the room is lost, and the session is to be closed; 4,096 bytes are enough. No memory is asked for.
/// If nothing is asked of a lane, the bytes are not too few and the session is not to be closed, a step takes a byte or more.
pub fn step(session: &mut Session, turn: &SessionTurn, bytes: &[u8], room: &mut [u8]) -> SessionDone
    ensures steps { Steps (not (turn.now.refuses == 0)) session.old bytes.now room.old
        result session.new room.new }
    ensures taken { result.taken ≤ length bytes.now }
    ensures answered { result.answered ≤ length room.old }
    ensures most { result.answered ≤ 4096 }
    ensures whole { 4096 ≤ length room.old → (result.outcome == 13) ≡ false }
    ensures some { is_alone (want_of session.old bytes.now) ≡ true → 1 ≤ result.taken }
{
    let mut reader = session.reader();
    let step = reader.take(bytes);
    match Keyed::of(&step.event) {
        Some(_) => SessionDone::nothing(),
        None => {
            let answered = answer_alone(turn.refuses != 0, &step.event);
            settle(&step, reader.state, &answered, session, room)
        }
    }
}
