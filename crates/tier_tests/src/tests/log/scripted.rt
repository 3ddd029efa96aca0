//! The log of a test's text, and the device below it.
ghost use Rattle.record_pages.specs.Sizes.{IsPageSize};

use super::run::{call, take};
use super::*;
use test_devices::find_wrong_line;

/// A log that steps open, what the device of the next one does, and what was taken of it.
#[derive(Drop)]
struct Played {
    refused: Refused,
    owner: Option<Box<Owner<Tried, 256>>>,
    taken: Option<TakenRecords>,
}

impl Scripted for Played {
    ghost use Rattle.std.specs.Prelude.{⊤};

    ghost can_act = { ⊤ };

    fn act(&mut self, alloc: Global, step: &mut TextStep<'_>) -> Result<(), Fail> {
        let word = step.word();
        if is(word, b"config") {
            return self.open(alloc, step);
        }
        if is(word, b"refuse") || is(word, b"refuse-from") {
            self.refuse(is(word, b"refuse-from"), step);
            return Ok(());
        }
        match &mut self.owner {
            Some(owner) => call_or_hold(alloc, &mut **owner, &mut self.taken, word, step),
            None => Err("a log".into()),
        }
    }
}

impl Played {
    // The call of the next device that is refused.
    fn refuse(&mut self, for_good: bool, step: &mut TextStep<'_>) {
        self.refused = Refused {
            call: step.small(),
            for_good,
        };
    }

    // Opens a log of the configuration of a step, over a device of zeros with just the pages that it needs.
    fn open(&mut self, alloc: Global, step: &mut TextStep<'_>) -> Result<(), Fail> {
        let config = step.config();
        self.owner = Some(opened(alloc, &config, self.refused)?);
        self.refused = NONE_REFUSED;
        Ok(())
    }
}

// Makes a call of a log, or takes its set and keeps what was taken, or drops that from the log, or tells what was asked of the device.
fn call_or_hold(
    alloc: Global,
    owner: &mut Owner<Tried, 256>,
    taken: &mut Option<TakenRecords>,
    word: &[u8],
    step: &mut TextStep<'_>,
) -> Result<(), Fail> {
    if is(word, b"hold") {
        *taken = Some(records(take(alloc, owner)?)?);
    } else if is(word, b"drop-held") {
        match taken {
            Some(records) => owner.drop_taken(0, records),
            None => step.refuse(),
        }
    } else if is(word, b"asked") {
        step.tell(owner.device().asked());
    } else {
        return call(alloc, owner, word, step);
    }
    Ok(())
}

// The records that were taken.
fn records(taken: SetTaken) -> Result<TakenRecords, &'static str> {
    match taken {
        SetTaken::Records(records) => Ok(records),
        SetTaken::PageLost => Err("a lost page"),
    }
}

// A log over a device that refuses these calls; an opening that lacks memory is tried once more.
fn opened(
    alloc: Global,
    config: &Config,
    refused: Refused,
) -> Result<Box<Owner<Tried, 256>>, Fail> {
    let layout = layout(config)?;
    let pages = pages_of(config);
    let first = Owner::open(alloc, &layout, device(alloc, pages, refused)?);
    let owner = match first {
        Ok(owner) => owner,
        Err(_) => Owner::open(alloc, &layout, device(alloc, pages, refused)?)?,
    };
    match owner {
        Some(owner) => Ok(owner),
        None => Err("a device that is large enough".into()),
    }
}

// No log is open.
fn unopened() -> Played {
    Played {
        refused: NONE_REFUSED,
        owner: None,
        taken: None,
    }
}

/// Makes the calls of a text, of logs that it opens.
pub fn play(alloc: Global, text: &[u8]) -> Result<(), Fail> {
    run_text(alloc, &mut unopened(), text)
}

/// Makes the same calls, and gives the number of the first line that is wrong, or 0.
pub fn wrong_line(alloc: Global, text: &[u8]) -> Result<u64, Fail> {
    match find_wrong_line(alloc, &mut unopened(), text)? {
        Some(wrong) => Ok(wrong.number),
        None => Ok(0),
    }
}

// One lane of one set, and two segments of one page.
const ONE_SET: Config = Config {
    lanes: 1,
    sets: 1,
    memory: 1,
    segments: 2,
    segment_pages: 1,
    entries: 8,
    threshold: 1,
    admit: 65536,
};

/// Makes the calls of a text of a log over a device of which each page is read as zeros.
pub fn play_on_blank(alloc: Global, text: &[u8]) -> Result<(), Fail> {
    let mut owner: Box<Owner<BlankDevice, 256>> = log(alloc, &ONE_SET, BlankDevice(3))?;
    run_text(alloc, &mut *owner, text)
}

/// A log over a device.
pub fn log<D: PageDevice<PAGE>, const PAGE: usize>(
    alloc: Global,
    config: &Config,
    device: D,
) -> Result<Box<Owner<D, PAGE>>, Fail>
    requires { IsPageSize PAGE }
{
    match Owner::open(alloc, &layout(config)?, device) {
        Ok(Some(owner)) => Ok(owner),
        Ok(None) => Err("a device that is large enough".into()),
        Err(fault) => Err(fault.into()),
    }
}
