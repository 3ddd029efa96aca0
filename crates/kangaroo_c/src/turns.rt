// Turns and flushes, access by access, over words that C keeps.
ghost use Rattle.std.specs.Prelude.{◌≡◌, ◌==◌, not};
ghost use Rattle.turn_register.specs.Delays.{first_number};
ghost use Rattle.turn_register.specs.Turns.{flush_begun, next_turn};
ghost use Rattle.kangaroo_c.specs.Telling.{IsFull};
ghost use Rattle.kangaroo_c.specs.Turning.{BeginsTurn};

use crate::handle::Handle;
use crate::keeping::{put_back, take_lane};
use c_lane::SessionWanted;
use std::alloc::Global;
use turn_register::RegisterTurn;

/// Begins a turn on a lane that is held, for what a step wants of it. Its moment is now, or that of the lane's last turn if that is later.
/// The lane stays as it is.
#[unsafe(no_mangle)]
pub extern "C" fn ks_begin_turn(
    alloc: Global,
    lane: &mut Handle,
    wanted: &SessionWanted,
    now: u64,
    to: &mut RegisterTurn,
)
    requires { IsFull lane.old.lane }
    ensures begun { BeginsTurn wanted.now now lane.old.lane to.new }
    ensures stays { lane.new.lane ≡ lane.old.lane }
{
    let kept = take_lane(alloc, lane);
    *to = RegisterTurn::begin(
        wanted.place.lane,
        wanted.argument != 0,
        now,
        kept.last.moment,
    );
    put_back(lane, kept);
}

/// Begins a flush after a delay in seconds, 0 for at once. Up to 30 days count from now, and more are seconds since 1970.
#[unsafe(no_mangle)]
pub extern "C" fn ks_begin_flush(delay: u32, now: u64, to: &mut RegisterTurn)
    ensures { to.new ≡ flush_begun delay now }
{
    *to = RegisterTurn::begin_flush(u64::from(delay), now);
}

/// Goes on with a turn or a flush, after C made the access of its place and read this.
#[unsafe(no_mangle)]
pub extern "C" fn ks_go_on(turn: &mut RegisterTurn, read: u64)
    ensures { turn.new ≡ next_turn turn.old read }
{
    turn.go_on(read);
}

/// The first number of a server that starts at this time, in microseconds since 1970.
#[unsafe(no_mangle)]
pub extern "C" fn ks_first_number(microseconds: u64) -> u64
    ensures { result ≡ first_number microseconds }
{
    turn_register::first_number(microseconds)
}
