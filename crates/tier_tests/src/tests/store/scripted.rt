//! The store of a test's text, and the device below it.
use super::opening::boxed;
use super::run::call;
use super::*;
use test_devices::{AskedDevice, Scripted, run_text};

type Tried = AskedDevice<FuseDevice<StaleDevice<256>>>;

/// A store that steps open, and what the device of the next one does.
#[derive(Drop)]
struct Played {
    config: Config,
    /// The page that is read as it was before its last write, and the number of the write from which on it is.
    stale: u32,
    writes: u32,
    /// The number of the device's call that is refused, from 1, or 0.
    refused: u32,
    store: Option<Box<Store<Tried, 256>>>,
}

impl Scripted for Played {
    ghost use Rattle.std.specs.Prelude.{⊤};

    ghost can_act = { ⊤ };

    fn act(&mut self, alloc: Global, step: &mut TextStep<'_>) -> Result<(), Fail> {
        let word = step.word();
        if is(word, b"config") {
            return self.open(alloc, step);
        }
        if is(word, b"again") {
            return self.open_again(alloc);
        }
        if is(word, b"stale") {
            self.stale = step.small();
            self.writes = step.small();
        } else if is(word, b"refuse") {
            self.refused = step.small();
        } else {
            return self.call(alloc, word, step);
        }
        Ok(())
    }
}

impl Played {
    // Makes a call of the store, or tells what the calls since the opening asked of the device, in this order.
    fn call(&mut self, alloc: Global, word: &[u8], step: &mut TextStep<'_>) -> Result<(), Fail> {
        let Some(store) = &mut self.store else {
            step.refuse();
            return Ok(());
        };
        if is(word, b"asked") {
            step.tell(store.device().asked());
            return Ok(());
        }
        call(alloc, &mut **store, word, step)
    }

    // Opens an empty store of the configuration of a step, over a device of zeros with just the pages that it needs.
    fn open(&mut self, alloc: Global, step: &mut TextStep<'_>) -> Result<(), Fail> {
        self.config = step.config();
        self.store = match self.opened(alloc) {
            Ok(store) => Some(store),
            Err(_) => Some(self.opened(alloc)?),
        };
        self.stale = u32::MAX;
        self.refused = 0;
        Ok(())
    }

    // An empty store of the configuration.
    fn opened(&self, alloc: Global) -> Result<Box<Store<Tried, 256>>, OpenFault> {
        boxed(alloc, &self.config, self.device(alloc)?)
    }

    // Opens another empty store over the device of the one that is open.
    fn open_again(&mut self, alloc: Global) -> Result<(), Fail> {
        let Some(store) = self.store.take() else {
            return Err("a store".into());
        };
        let device = Box::into_inner(store).into_device();
        self.store = Some(boxed(alloc, &self.config, device)?);
        Ok(())
    }

    // The pages of the sets and of the segments.
    fn device(&self, alloc: Global) -> Result<Tried, AllocError> {
        let pages = pages_of(&self.config);
        let stale = StaleDevice::new(alloc, pages, self.stale, self.writes)?;
        Ok(AskedDevice::new(FuseDevice::one(stale, self.refused)))
    }
}

/// Makes the calls of a text, of stores that it opens.
pub fn play(alloc: Global, text: &[u8]) -> Result<(), Fail> {
    let mut played = Played {
        config: ONE_SET,
        stale: u32::MAX,
        writes: 1,
        refused: 0,
        store: None,
    };
    run_text(alloc, &mut played, text)
}
