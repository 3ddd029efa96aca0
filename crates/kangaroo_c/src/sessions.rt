// Sessions of memcached's text protocol.
ghost use Rattle.std.specs.Prelude.{◌≡◌, false, ◌≤◌, ◌==◌, not, length};
ghost use Rattle.memcached_session.specs.Stepping.{Steps};
ghost use Rattle.memcached_session.specs.Wanting.{want_of};
ghost use Rattle.c_lane.specs.Sessions.{wanted_by};
ghost use Rattle.kangaroo_c.specs.Telling.{IsFull};
ghost use Rattle.kangaroo_c.specs.Turning.{StepsAt};

use crate::handle::Handle;
use crate::keeping::{put_back, take_lane};
use c_lane::{Seed, SessionWanted, session_wanted};
use memcached_session::{Session, SessionDone, SessionTurn, step};
use std::alloc::Global;
use turn_register::RegisterTurn;

/// What the next step of a session needs, by the bytes at hand.
#[unsafe(no_mangle)]
pub extern "C" fn ks_want(
    session: &Session,
    seed: &Seed,
    lanes: u32,
    bytes: &[u8],
    to: &mut SessionWanted,
)
    requires { 1 ≤ lanes }
    ensures exact { to.new ≡ wanted_by seed.now lanes (want_of session.now bytes.now) }
    ensures few { to.new.wants ≡ 0 → length bytes.now ≤ 4089 }
{
    *to = session_wanted(session, seed, lanes, bytes);
}

/// Takes the next step of a session that asks nothing of a lane; nothing is done if it asks something. If `refuses` is not 0 the server
/// does not do what the step asks of it, a flush or its end, and the answer says so. No answer is lost in a room of 4,096 bytes.
#[unsafe(no_mangle)]
pub extern "C" fn ks_step(
    session: &mut Session,
    refuses: u32,
    bytes: &[u8],
    answer: &mut [u8],
    to: &mut SessionDone,
)
    ensures steps { Steps (not (refuses == 0)) session.old bytes.now answer.old to.new session.new answer.new }
    ensures taken { to.new.taken ≤ length bytes.now }
    ensures answered { to.new.answered ≤ length answer.old }
    ensures most { to.new.answered ≤ 4096 }
    ensures whole { 4096 ≤ length answer.old → (to.new.outcome == 13) ≡ false }
{
    let turn = SessionTurn {
        moment: 0,
        flushed: 0,
        cas: 0,
        refuses,
        reserved: 0,
    };
    *to = step(session, &turn, bytes, answer);
}

/// Takes the next step of a session with the lane of its key, by a turn of the register. Returns whether upkeep is due in the lane after
/// it: 1 or 0. Nothing is taken if the step asks nothing of a lane. No answer is lost in a room of 2,448 bytes.
///
/// Nothing is done if the turn was begun for another lane: then it returns 2. Nor is anything if the turn is not whole, or may not follow
/// the last one of the lane: then it returns 3. Both are a fault of the caller.
#[unsafe(no_mangle)]
pub extern "C" fn ks_lane_step(
    alloc: Global,
    session: &mut Session,
    lane: &mut Handle,
    turn: &RegisterTurn,
    bytes: &[u8],
    answer: &mut [u8],
    to: &mut SessionDone,
) -> u32
    requires { IsFull lane.old.lane }
    ensures steps { StepsAt turn.now session.old bytes.now answer.old lane.old.lane result to.new session.new answer.new lane.new.lane }
    ensures taken { to.new.taken ≤ length bytes.now }
    ensures answered { to.new.answered ≤ length answer.old }
    ensures most { to.new.answered ≤ 2448 }
    ensures whole { 2448 ≤ length answer.old → (to.new.outcome == 13) ≡ false }
{
    let mut kept = take_lane(alloc, lane);
    if let Some(refusal) = kept.refusal(turn) {
        put_back(lane, kept);
        *to = SessionDone {
            taken: 0,
            answered: 0,
            command: 0,
            outcome: 0,
        };
        return refusal;
    }
    *to = kept.step(alloc, session, turn, bytes, answer);
    let is_due = u32::from(kept.lane.is_due());
    put_back(lane, kept);
    is_due
}
