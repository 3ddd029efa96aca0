//! What the steps of a text are calls of: a lane of items, or a stream of bytes.
use super::commands::command;
use super::lines::on_stream;
use item_lane::CommandTurn;
use key_hash::RandomSeed;
use page_device::MemoryDevice;
use record_pages::Config;
use service_lane::ServiceLane;
use std::alloc::{AllocError, Global};
use std::test::Fail;
use test_devices::{Scripted, TextStep, is, run_text};

/// The lanes of these tests.
pub type Lane = ServiceLane<MemoryDevice<4096>, 4096>;

/// A stream of bytes, and a lane if one is open, with what a server gives its commands.
#[derive(Drop)]
struct Server {
    stream: Vec<u8>,
    lane: Option<Box<Lane>>,
    turn: CommandTurn,
}

impl Scripted for Server {
    ghost use Rattle.std.specs.Prelude.{⊤};

    ghost can_act = { ⊤ };

    fn act(&mut self, alloc: Global, step: &mut TextStep<'_>) -> Result<(), Fail> {
        let word = step.word();
        if is(word, b"open") {
            self.lane = Some(new_lane(alloc, step.small())?);
        } else if is(word, b"at") {
            self.turn = turn_of(step);
        } else {
            match &mut self.lane {
                Some(lane) => command(&mut **lane, alloc, self.turn, word, step),
                None => on_stream(alloc, &mut self.stream, word, step)?,
            }
        }
        Ok(())
    }
}

// Takes a moment, and the number of the last flush.
fn turn_of(step: &mut TextStep<'_>) -> CommandTurn {
    CommandTurn {
        moment: step.number(),
        flushed: step.number(),
        word: 0,
    }
}

/// A new lane of one set, with so many objects in memory and two segments of one page, in a box.
pub fn new_lane(alloc: Global, memory: u32) -> Result<Box<Lane>, Fail> {
    let config = Config {
        lanes: 1,
        sets: 1,
        memory,
        segments: 2,
        segment_pages: 1,
        entries: 8,
        threshold: 1,
        admit: 65536,
    };
    let device = MemoryDevice::new(alloc, 3)?;
    let lane = ServiceLane::open(alloc, &config, 4, device, RandomSeed::fixed())?;
    Ok(boxed(alloc, lane)?)
}

fn boxed(alloc: Global, lane: Lane) -> Result<Box<Lane>, AllocError> {
    Ok(Box::new(alloc, lane)?)
}

/// Makes the calls of a text, of lanes that it opens and streams that it writes.
pub fn play(alloc: Global, text: &[u8]) -> Result<(), Fail> {
    let turn = CommandTurn {
        moment: 0,
        flushed: 0,
        word: 0,
    };
    let mut server = Server {
        stream: Vec::new(alloc),
        lane: None,
        turn,
    };
    run_text(alloc, &mut server, text)
}
