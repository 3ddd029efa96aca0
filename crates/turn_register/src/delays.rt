// The moment of a flush that is to come, and the first number.
ghost use Rattle.std.specs.Prelude.{◌≡◌, ◌<◌, ◌^◌};
ghost use Rattle.turn_register.specs.Delays.{is_due, later_of, first_number};

/// Up to so many seconds a delay counts from now; more are seconds since 1970.
const THIRTY_DAYS: u64 = 2_592_000;

/// So many microseconds, or fewer, have a number of their own.
const MOST_MICROSECONDS: u64 = 36_028_797_018_963_967;

/// The moment of a flush that is asked for with this delay now, or 0 if it is for now.
pub(crate) fn later_of(delay: u64, now: u64) -> u64
    ensures { result ≡ later_of delay now }
{
    if delay == 0 {
        0
    } else if delay <= THIRTY_DAYS {
        now.saturating_add(delay)
    } else if now < delay {
        delay
    } else {
        0
    }
}

/// Whether a flush that is to come at a moment, 0 for none, is to be made at another.
pub(crate) fn is_due(pending: u64, moment: u64) -> bool
    ensures { result ≡ is_due pending moment }
{
    pending != 0 && pending <= moment
}

/// The first number of a server that starts at this time, in microseconds since 1970: numbers begin at the time, in 256ths of a
/// microsecond. So no item has a number that one had before a restart, unless more than 256 were drawn in each microsecond, or the clock
/// was set back. There is room for 2^63 numbers after it.
pub fn first_number(microseconds: u64) -> u64
    ensures exact { result ≡ first_number microseconds }
    ensures room { result < 2 ^ 63 }
{
    microseconds.min(MOST_MICROSECONDS) * 256
}
