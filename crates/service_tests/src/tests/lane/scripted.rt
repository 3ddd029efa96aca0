//! The lane of a test's text.
use super::opening::lane;
use super::run::call;
use super::*;
use test_devices::{Scripted, run_text};

/// A lane that steps open, and the leases that steps keep.
#[derive(Drop)]
struct Played {
    lane: Option<Box<Lane>>,
    leases: [Lease; 2],
}

impl Scripted for Played {
    ghost use Rattle.std.specs.Prelude.{⊤};

    ghost can_act = { ⊤ };

    fn act(&mut self, alloc: Global, step: &mut TextStep<'_>) -> Result<(), Fail> {
        let word = step.word();
        if is(word, b"open") {
            self.lane = Some(lane(alloc, step.small())?);
            return Ok(());
        }
        match &mut self.lane {
            Some(lane) => call(alloc, &mut **lane, &mut self.leases, word, step),
            None => {
                step.refuse();
                Ok(())
            }
        }
    }
}

/// Makes the calls of a text, of a lane that it opens.
pub fn play(alloc: Global, text: &[u8]) -> Result<(), Fail> {
    let mut played = Played {
        lane: None,
        leases: [Lease {
            writes: 0,
            hash: 0,
            lane: 0,
        }; 2],
    };
    run_text(alloc, &mut played, text)
}
