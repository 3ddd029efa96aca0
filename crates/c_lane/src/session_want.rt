// What the next step of a session needs, in numbers for C.
ghost use Rattle.std.specs.Prelude.{◌≡◌, ◌≤◌, length};
ghost use Rattle.memcached_session.specs.Wanting.{want_of};
ghost use Rattle.c_lane.specs.Sessions.{number_of_need, argument_of_need, wanted_by};

use crate::key_place::{KeyPlace, place_of};
use crate::seed::Seed;
use memcached_session::{Need, Session, Want, what_is_wanted};

/// What the next step of a session needs, in the numbers of `c/session.h`.
#[repr(C)]
#[derive(Clone, Copy)]
pub struct SessionWanted {
    /// 0 more bytes, 1 nothing, 2 a lane, 3 a flush, 4 stats, 5 that the server says more or less, 6 its end, 7 that the client is closed.
    pub wants: u32,
    /// The seconds of a flush, the number of a `StatsKind`, a level, whether an end is graceful, or whether an item may get the
    /// number that the server draws; else 0.
    pub argument: u32,
    /// The place of the key, if a lane is needed; else zeros.
    pub place: KeyPlace,
}

/// What the next step of a session needs, by the bytes at hand, in a cache of this many lanes with this seed.
pub fn session_wanted(session: &Session, seed: &Seed, lanes: u32, bytes: &[u8]) -> SessionWanted
    requires { 1 ≤ lanes }
    ensures exact { result ≡ wanted_by seed.now lanes (want_of session.now bytes.now) }
    ensures few { result.wants ≡ 0 → length bytes.now ≤ 4089 }
{
    match what_is_wanted(session, bytes) {
        Want::Lane { key, gives_number } => SessionWanted {
            wants: 2,
            argument: u32::from(gives_number),
            place: place_of(seed, lanes, key),
        },
        Want::Alone(need) => {
            let wants = number_of(need);
            SessionWanted {
                wants,
                argument: argument_of(need),
                place: KeyPlace { lane: 0, word: 0 },
            }
        }
    }
}

// The number of a need.
fn number_of(need: Need) -> u32
    ensures exact { result ≡ number_of_need need }
    ensures more { result ≡ 0 → need ≡ Need.More }
{
    match need {
        Need::More => 0,
        Need::Step => 1,
        Need::FlushAll(_) => 3,
        Need::Stats(_) => 4,
        Need::Verbosity(_) => 5,
        Need::Shutdown(_) => 6,
        Need::Close => 7,
    }
}

// The number that belongs to a need.
fn argument_of(need: Need) -> u32
    ensures { result ≡ argument_of_need need }
{
    match need {
        Need::More => 0,
        Need::Step => 0,
        Need::FlushAll(delay) => delay,
        Need::Stats(kind) => kind.number(),
        Need::Verbosity(level) => level,
        Need::Shutdown(graceful) => u32::from(graceful),
        Need::Close => 0,
    }
}
