// A device that tells which calls came.
ghost use Rattle.std.specs.Prelude.{◌≡◌, ◌<◌, OnOk, IsTrue};
ghost use Rattle.page_device.specs.Device.{failures_after, WritesPage, IsKnown};

use arrayvec::ArrayVec;
use itoa::Buffer;
use page_device::{DeviceFault, PageDevice};

/// A device over another one that tells which calls came, in their order. It passes all on.
#[derive(Drop)]
pub struct AskedDevice<D> {
    inner: D,
    told: ArrayVec<u8, 1024>,
    is_full: bool,
}

impl<D> AskedDevice<D> {
    /// The device below, of which nothing was asked yet.
    pub fn new(inner: D) -> Self
        ensures { result.inner ≡ inner }
    {
        AskedDevice {
            inner,
            told: ArrayVec::new(),
            is_full: false,
        }
    }

    /// The calls that came, as words: `write 1 read 1`. `none` if none came, and `more than fit` if they have over 1,024 bytes.
    pub fn asked(&self) -> &[u8] {
        if self.is_full {
            b"more than fit"
        } else if self.told.is_empty() {
            b"none"
        } else {
            self.told.as_slice()
        }
    }

    // Tells a call.
    fn note(&mut self, call: &[u8], page: u32)
        ensures { self.new.inner ≡ self.old.inner }
    {
        self.is_full |= !tell_call(call, page, &mut self.told);
    }
}

// Tells a call as two words, and says whether there was room.
fn tell_call<const MOST: usize>(call: &[u8], page: u32, told: &mut ArrayVec<u8, MOST>) -> bool {
    let mut buffer = Buffer::new();
    (told.is_empty() || told.try_push(b' ').is_ok())
        && told.try_extend_from_slice(call).is_ok()
        && told
            .try_extend_from_slice(buffer.format(page).as_bytes())
            .is_ok()
}

impl<D: PageDevice<PAGE>, const PAGE: usize> PageDevice<PAGE> for AskedDevice<D> {
    ghost page_count = { λ d. D.page_count d.inner };

    ghost honest = { λ d. D.honest d.inner };

    ghost held = { λ d. D.held d.inner };

    ghost failures = { λ d. D.failures d.inner };

    fn pages(&self) -> u32 {
        self.inner.pages()
    }

    fn read(&mut self, page: u32, into: &mut [u8; PAGE]) -> Result<(), DeviceFault> {
        self.note(b"read ", page);
        self.inner.read(page, into)
    }

    fn write(&mut self, page: u32, bytes: &[u8; PAGE]) -> Result<(), DeviceFault> {
        self.note(b"write ", page);
        self.inner.write(page, bytes)
    }
}
