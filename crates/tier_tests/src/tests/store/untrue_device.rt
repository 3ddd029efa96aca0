//! A device that gives pages which were never written.
ghost use Rattle.std.specs.Prelude.{None, false, length};

use page_device::{DeviceFault, MemoryDevice, PageDevice};
use rand_core::utils::NextWord;
use rand_pcg::Lcg64Xsh32;
use std::sync::atomic::{AtomicU32, Ordering};

/// Pages in memory. Of four reads one gives the page as it is, one words of a generator and two the page with one bit turned;
/// those that do not give the page as it is are counted.
#[derive(Drop)]
pub struct UntrueDevice<'a> {
    pages: MemoryDevice<256>,
    words: Lcg64Xsh32,
    untrue: &'a AtomicU32,
}

impl<'a> UntrueDevice<'a> {
    /// Over these pages.
    pub fn new(pages: MemoryDevice<256>, untrue: &'a AtomicU32) -> Self {
        UntrueDevice {
            pages,
            words: Lcg64Xsh32::new(2, 2),
            untrue,
        }
    }
}

impl PageDevice<256> for UntrueDevice<'_> {
    ghost page_count = { λ d. length d.pages };

    ghost honest = { λ _. false };

    ghost held = { λ _ _. None };

    ghost failures = { λ _. 0 };

    fn pages(&self) -> u32 {
        self.pages.pages()
    }

    fn read(&mut self, page: u32, into: &mut [u8; 256]) -> Result<(), DeviceFault> {
        let word = self.words.next_word();
        if word % 4 == 0 {
            return self.pages.read(page, into);
        }
        self.untrue.fetch_add(1, Ordering::SeqCst);
        if word % 4 == 1 {
            fill(&mut self.words, into);
            return Ok(());
        }
        self.pages.read(page, into)?;
        into[(word / 4 % 256) as usize] ^= 1u8 << (word / 1024 % 8);
        Ok(())
    }

    fn write(&mut self, page: u32, bytes: &[u8; 256]) -> Result<(), DeviceFault> {
        self.pages.write(page, bytes)
    }
}

// Fills a page with words of a generator.
fn fill(words: &mut Lcg64Xsh32, into: &mut [u8; 256]) {
    for at in 0..256usize {
        into[at] = (words.next_word() % 256) as u8;
    }
}
