// A worker's lanes in turn, and its rest if there is nothing to do.
ghost use Rattle.std.specs.Prelude.{◌≡◌, ◌<◌, ◌+◌, ◌%◌};

use std::sync::Wait;
use std::sync::atomic::AtomicU64;
use std::time::Duration;

/// How long a worker rests, at the most, in microseconds.
const NAP: u64 = 50;

/// The lane after this one, in turn: after the last one the first.
pub(crate) fn lane_after(lane: u32, lanes: u32) -> u32
    requires { lane < lanes }
    ensures next { result ≡ (lane + 1) % lanes }
    ensures within { result < lanes }
{
    if lane + 1 < lanes { lane + 1 } else { 0 }
}

/// Rests for 50 microseconds at the most, as long as this many callers are running.
pub(crate) fn rest<R: Wait>(rt: &R, running: &AtomicU64, callers: u64) {
    running.park_timeout(
        rt,
        (callers & 0xffff_ffff) as u32,
        Duration::from_micros(NAP),
    );
}
