//! The sets of a test's text, and the device below them.
use super::run::call;
use super::*;

// The pages of the device.
const PAGES: u32 = 5;

/// Sets that steps open, what the device of the next ones does, and for how many strikes they have room, or eight for each set.
#[derive(Drop)]
struct Played {
    refused: Refused,
    strikes: Option<u32>,
    owner: Option<Box<Owner<Tried, 256>>>,
}

impl Scripted for Played {
    ghost use Rattle.std.specs.Prelude.{⊤};

    ghost can_act = { ⊤ };

    fn act(&mut self, alloc: Global, step: &mut TextStep<'_>) -> Result<(), Fail> {
        let word = step.word();
        if is(word, b"config") {
            return self.open(alloc, step);
        }
        if is(word, b"refuse") || is(word, b"refuse-from") {
            self.refuse(is(word, b"refuse-from"), step);
            return Ok(());
        }
        if is(word, b"room") {
            self.strikes = Some(step.small());
            return Ok(());
        }
        match &mut self.owner {
            Some(owner) => call_or_ask(alloc, &mut **owner, word, step),
            None => Err("sets".into()),
        }
    }
}

impl Played {
    // The call of the next device that is refused.
    fn refuse(&mut self, for_good: bool, step: &mut TextStep<'_>) {
        self.refused = Refused {
            call: step.small(),
            for_good,
        };
    }

    // Opens empty sets of the configuration of a step, over a device of zeros.
    fn open(&mut self, alloc: Global, step: &mut TextStep<'_>) -> Result<(), Fail> {
        let layout = layout(&step.config())?;
        let strikes = self.strikes.unwrap_or(8 * layout.sets);
        self.owner = Some(opened(alloc, &layout, strikes, self.refused)?);
        self.refused = NONE_REFUSED;
        self.strikes = None;
        Ok(())
    }
}

// Makes a call of sets, or tells what was asked of the device.
fn call_or_ask(
    alloc: Global,
    owner: &mut Owner<Tried, 256>,
    word: &[u8],
    step: &mut TextStep<'_>,
) -> Result<(), Fail> {
    if is(word, b"asked") {
        step.tell(owner.device().asked());
        return Ok(());
    }
    call(alloc, owner, word, step)
}

// Sets over a device that refuses these calls; an opening that lacks memory is tried once more.
fn opened(
    alloc: Global,
    layout: &Layout,
    strikes: u32,
    refused: Refused,
) -> Result<Box<Owner<Tried, 256>>, Fail> {
    if strikes > 524288 {
        return Err("room for so many strikes".into());
    }
    let first = Owner::open_with(alloc, layout, strikes, device(alloc, PAGES, refused)?);
    let owner = match first {
        Ok(owner) => owner,
        Err(_) => Owner::open_with(alloc, layout, strikes, device(alloc, PAGES, refused)?)?,
    };
    match owner {
        Some(owner) => Ok(owner),
        None => Err("a device that is large enough".into()),
    }
}

/// Makes the calls of a text, of sets that it opens.
pub fn play(alloc: Global, text: &[u8]) -> Result<(), Fail> {
    let mut played = Played {
        refused: NONE_REFUSED,
        strikes: None,
        owner: None,
    };
    run_text(alloc, &mut played, text)
}

/// Makes the calls of a text of one set over a device of which each page is read as zeros.
pub fn play_on_blank(alloc: Global, text: &[u8]) -> Result<(), Fail> {
    let mut owner: Box<Owner<BlankDevice, 256>> = sets(alloc, &ONE_SET, BlankDevice(1))?;
    run_text(alloc, &mut *owner, text)
}

/// Sets over a device.
pub fn sets<D: PageDevice<PAGE>, const PAGE: usize>(
    alloc: Global,
    config: &Config,
    device: D,
) -> Result<Box<Owner<D, PAGE>>, Fail> {
    match Owner::open(alloc, &layout(config)?, device) {
        Ok(Some(owner)) => Ok(owner),
        Ok(None) => Err("a device that is large enough".into()),
        Err(fault) => Err(fault.into()),
    }
}
