//! The lane of a test's text.
use super::run::{NO_LEASE, call};
use super::shapes::{complete, shape_of, tell_fault};
use super::*;
use test_devices::{Scripted, run_text};

/// A lane that steps open, and the leases that steps keep.
#[derive(Drop)]
struct Played {
    lane: Option<Box<CLane>>,
    leases: [Lease; 2],
}

impl Scripted for Played {
    ghost use Rattle.std.specs.Prelude.{⊤};

    ghost can_act = { ⊤ };

    fn act(&mut self, alloc: Global, step: &mut TextStep<'_>) -> Result<(), Fail> {
        let word = step.word();
        if is(word, b"open") {
            self.open(alloc, step);
        } else if is(word, b"fault") {
            tell_fault(step);
        } else if is(word, b"complete") {
            complete(step);
        } else {
            self.call(alloc, word, step);
        }
        Ok(())
    }
}

impl Played {
    // Opens an empty lane over so many pages, of the shape of a step, and tells the status.
    fn open(&mut self, alloc: Global, step: &mut TextStep<'_>) {
        let pages = step.small();
        match lane(alloc, &shape_of(step), pages) {
            Ok(lane) => {
                self.lane = Some(lane);
                step.tell(b"done");
            }
            Err(status) => step.tell(name_of(status)),
        }
    }

    // Makes a call of the lane.
    fn call(&mut self, alloc: Global, word: &[u8], step: &mut TextStep<'_>) {
        match &mut self.lane {
            Some(lane) => call(alloc, &mut **lane, &mut self.leases, word, step),
            None => step.refuse(),
        }
    }
}

// A lane of a shape over so many pages, opened once more if memory was refused.
fn lane(alloc: Global, shape: &LaneShape, pages: u32) -> Result<Box<CLane>, Status> {
    match opened(alloc, shape, pages) {
        Err(Status::NoMemory) => opened(alloc, shape, pages),
        Ok(lane) => Ok(lane),
        Err(status) => Err(status),
    }
}

// The same, in memory of its own.
fn opened(alloc: Global, shape: &LaneShape, pages: u32) -> Result<Box<CLane>, Status> {
    let Ok(device) = Device::new(alloc, pages) else {
        return Err(Status::NoMemory);
    };
    let lane = CLane::open(alloc, shape, &SEED, 0, device)?;
    match Box::new(alloc, lane) {
        Ok(lane) => Ok(lane),
        Err(_) => Err(Status::NoMemory),
    }
}

/// Makes the calls of a text, of lanes that it opens.
pub fn play(alloc: Global, text: &[u8]) -> Result<(), Fail> {
    let mut played = Played {
        lane: None,
        leases: [NO_LEASE; 2],
    };
    run_text(alloc, &mut played, text)
}

/// The name of a status.
pub fn name_of(status: Status) -> &'static [u8] {
    match status {
        Status::Done => b"done",
        Status::Absent => b"absent",
        Status::Expired => b"expired",
        Status::Unreadable => b"unreadable",
        Status::Damaged => b"damaged",
        Status::ShortBuffer => b"short buffer",
        Status::Stale => b"stale",
        Status::Rejected => b"rejected",
        Status::BadTrace => b"bad trace",
        Status::WrongKey => b"wrong key",
        Status::TooLarge => b"too large",
        Status::NoMemory => b"no memory",
        Status::WrongOptions => b"wrong options",
    }
}
