//! Stamps from one clock: by one seat, by two, and by a thread that another one waited for.
ghost use Rattle.std.specs.Prelude.{◌≡◌, IfOk};

use shared_cache::{Clock, ClockSeat, LAST_STAMP};
use std::alloc::Global;
use std::sync::Wait;
use std::test::Fail;
use std::thread::{Threads, join};
use test_devices::{Scripted, TextStep, is, run_text};

/// A seat and its clock.
#[derive(Drop)]
struct Seated<'a> {
    clock: &'a Clock,
    seat: ClockSeat,
    ghost tie: { seat.clock ≡ clock.now },
}

impl<'a> Scripted for Seated<'a> {
    ghost use Rattle.std.specs.Prelude.{⊤};

    ghost can_act = { ⊤ };

    fn act(&mut self, _alloc: Global, step: &mut TextStep<'_>) -> Result<(), Fail> {
        let word = step.word();
        Ok(take(self.clock, &mut self.seat, word, step))
    }
}

/// Two seats of a clock.
#[derive(Drop)]
struct Two<'a> {
    first: Seated<'a>,
    second: Seated<'a>,
}

impl<'a> Scripted for Two<'a> {
    ghost use Rattle.std.specs.Prelude.{⊤};

    ghost can_act = { ⊤ };

    fn act(&mut self, alloc: Global, step: &mut TextStep<'_>) -> Result<(), Fail> {
        if is(step.word(), b"first") {
            return self.first.act(alloc, step);
        }
        self.second.act(alloc, step)
    }
}

// Has a seat take a step: draw a stamp, observe one, or be told of one. Or tells the stamp that it has seen.
fn take(clock: &Clock, seat: &mut ClockSeat, word: &[u8], step: &mut TextStep<'_>)
    requires { seat.old.clock ≡ clock.now }
    ensures { seat.new.clock ≡ clock.now }
{
    if is(word, b"tick") {
        match clock.tick(seat) {
            Ok(stamp) => step.tell_number(stamp),
            Err(_) => step.tell(b"full"),
        }
    } else if is(word, b"observe") {
        clock.observe(seat, step.number().min(LAST_STAMP));
    } else if is(word, b"meet") {
        if seat.meet(step.number()).is_err() {
            step.tell(b"full");
        }
    } else if is(word, b"seen") {
        step.tell_number(seat.seen());
    } else {
        step.refuse();
    }
}

// A clock of two seats.
fn of_two(alloc: Global) -> Result<(Clock, ClockSeat, ClockSeat), Fail>
    ensures { IfOk result (λ r. (r.1.clock ≡ r.0) × (r.2.clock ≡ r.0)) }
{
    let (clock, mut seats) = Clock::new(alloc, 2)?;
    let (Some(first), Some(second)) = (seats.pop(), seats.pop()) else {
        return Err("two seats".into());
    };
    Ok((clock, first, second))
}

// Takes the steps of a text with the only seat of a new clock.
fn play(alloc: Global, text: &[u8]) -> Result<(), Fail> {
    let (clock, mut seats) = Clock::new(alloc, 1)?;
    let Some(seat) = seats.pop() else {
        return Err("one seat".into());
    };
    let mut seated = Seated {
        clock: &clock,
        seat,
    };
    run_text(alloc, &mut seated, text)
}

// The last stamp is 9,223,372,036,854,775,807.
static UNTIL_FULL: &[u8] = b"
    tick 1; tick 2; observe 9; tick 10; observe 4; seen 10; observe 9223372036854775807; tick full
    meet 9223372036854775808 full; seen 9223372036854775807
";

#[test]
fn one_seat_draws_stamps_until_the_clock_is_full(rt: HostRuntime) -> Result<(), Fail> {
    play(rt.alloc(), UNTIL_FULL)
}

// Takes the steps of a text with two seats of a new clock.
fn play_two(alloc: Global, text: &[u8]) -> Result<(), Fail> {
    let (clock, first, second) = of_two(alloc)?;
    let mut two = Two {
        first: Seated {
            clock: &clock,
            seat: first,
        },
        second: Seated {
            clock: &clock,
            seat: second,
        },
    };
    run_text(alloc, &mut two, text)
}

static IN_TURN: &[u8] = b"
    first tick 1; second tick 2; second observe 7; first tick 8
    second meet 20; first tick 9; second tick 21
";

#[test]
fn a_seat_draws_above_the_others_stamps(rt: HostRuntime) -> Result<(), Fail> {
    play_two(rt.alloc(), IN_TURN)
}

// Draws this many stamps, and answers the last.
fn draw(clock: &Clock, mut seat: ClockSeat, count: u32) -> (ClockSeat, u64)
    requires { seat.clock ≡ clock.now }
    ensures { result.0.clock ≡ clock.now }
{
    let mut last = 0;
    for _ in 0..count {
        if let Ok(stamp) = clock.tick(&mut seat) {
            last = stamp;
        }
    }
    (seat, last)
}

// Two threads draw stamps at a time.
fn draw_in_threads<R: Threads + Wait + Sync>(
    rt: &R,
    clock: &Clock,
    first: ClockSeat,
    second: ClockSeat,
) -> ((ClockSeat, u64), (ClockSeat, u64))
    requires first { first.clock ≡ clock.now }
    requires second { second.clock ≡ clock.now }
    ensures { result.0.0.clock ≡ clock.now }
{
    join(
        rt,
        || -> (ClockSeat, u64)
            requires { first.clock ≡ clock.now }
            ensures { result.0.clock ≡ clock.entry.now }
        { draw(clock, first, 1000) },
        || -> (ClockSeat, u64)
            requires { second.clock ≡ clock.now }
            ensures { result.0.clock ≡ clock.entry.now }
        { draw(clock, second, 1000) },
    )
}

// Whether a stamp after the end of two threads is above each of theirs.
fn is_above_both<R: Threads + Wait + Sync>(rt: &R, alloc: Global) -> Result<bool, Fail> {
    let (clock, first, second) = of_two(alloc)?;
    let ((mut first, its), (_, other)) = draw_in_threads(rt, &clock, first, second);
    let next = clock.tick(&mut first).unwrap_or(0);
    Ok(its >= 1000 && other >= 1000 && its < next && other < next)
}

#[test]
fn a_stamp_is_above_those_of_joined_threads(rt: HostRuntime) -> Result<(), Fail> {
    assert!(rt; is_above_both(&rt, rt.alloc())?);
    Ok(())
}
