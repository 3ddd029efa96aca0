// A device in a file.
ghost use Rattle.std.specs.Prelude.{◌≡◌, ◌<◌, ◌≤◌, ◌*◌, ◌↔◌, false, None, Ok, IfErr, IfOk, IsErrOf, IsOk};
ghost use Rattle.file_device.specs.FilePages.{FilePages, new_device, after_call};
ghost use Rattle.file_device.specs.Faults.{TellsMemoryApart};

use crate::file_open_fault::{FileOpenFault, told_as};
use crate::opening::open_locked;
use page_device::{DeviceFault, PageDevice};
use std::fs::File;
use std::io;
use std::marker::Model;
use std::os::unix::fs::FileExt;
use std::rt::Files;

/// Pages in a regular file of the system, of at most 4096 bytes each: page `p` lies in the file from byte `p * PAGE`
/// on.
///
/// A read or a write is one call of the system. If that fails, is interrupted or moves less than a page, the answer is
/// `DeviceFault`, and it is not tried again: of a page that was to be written any part may be in the file.
///
/// It is not honest: nothing is promised of what a read gives. No other device has the file while this one lives, but a
/// program that does not ask for the lock may write it. Nothing is synced: what was written last may be lost if the
/// machine stops. Room on the disk is not reserved: if it is full, writes fail. What was written stays in the file, and
/// can be read there when the device is gone.
#[derive(Drop)]
pub struct FileDevice<const PAGE: usize> {
    file: File,
    pages: u32,
    failures: u64,
}

/// How many pages it has, and how many calls have failed.
impl<const PAGE: usize> Model for FileDevice<PAGE> {
    ghost Value = { FilePages };

    ghost view = { λ d. record { pages = d.pages; failures = d.failures } };

    ghost invariant = { λ _. PAGE ≤ 4096 };
}

impl<const PAGE: usize> FileDevice<PAGE> {
    /// Opens a file as a device of this many pages, makes it with mode 0600 if absent, and sets its length to theirs.
    ///
    /// The pages that the file has keep their bytes, new ones hold zeros, and what lies past the last page is cut off.
    /// The file is locked before that, without waiting, and until the device is dropped: one that another device has is
    /// refused with nothing changed. A link is followed. If the system bounds the length of files for this process, and
    /// these pages exceed that, the system may end the process.
    pub fn open<R: Files<File = File>>(
        rt: &R,
        path: &str,
        pages: u32,
    ) -> Result<Self, FileOpenFault>
        ensures opened { IfOk result (λ device. device ≡ new_device pages) }
        ensures page { IsErrOf result FileOpenFault.PageTooLarge ↔ (4096 < PAGE) }
        ensures memory { IfErr result TellsMemoryApart }
    {
        if PAGE > 4096 {
            return Err(FileOpenFault::PageTooLarge);
        }
        let file = open_locked(rt, path)?;
        match file.set_len(Self::start_of(pages)) {
            Ok(()) => Ok(FileDevice {
                file,
                pages,
                failures: 0,
            }),
            Err(error) => Err(told_as(error, FileOpenFault::Sizing(error))),
        }
    }

    /// The byte of the file at which a page starts.
    fn start_of(page: u32) -> u64
        requires { PAGE ≤ 4096 }
        ensures { result ≡ page * PAGE }
    {
        page as u64 * PAGE as u64
    }

    /// Counts a call of the system that moved this many bytes, or failed.
    fn ended(&mut self, moved: io::Result<usize>) -> Result<(), DeviceFault>
        ensures whole { IsOk result ↔ (moved ≡ Ok PAGE) }
        ensures counted { self.new ≡ after_call self.old result }
    {
        if let Ok(count) = moved
            && count == PAGE
        {
            return Ok(());
        }
        self.failures = self.failures.wrapping_add(1);
        Err(DeviceFault)
    }
}

/// It has the pages that it was opened with. Nothing is known of what they hold.
impl<const PAGE: usize> PageDevice<PAGE> for FileDevice<PAGE> {
    ghost page_count = { λ d. d.pages };

    ghost honest = { λ _. false };

    ghost held = { λ _ _. None };

    ghost failures = { λ d. d.failures };

    fn pages(&self) -> u32 {
        self.pages
    }

    fn read(&mut self, page: u32, into: &mut [u8; PAGE]) -> Result<(), DeviceFault> {
        let moved = self.file.read_at(into, Self::start_of(page));
        self.ended(moved)
    }

    fn write(&mut self, page: u32, bytes: &[u8; PAGE]) -> Result<(), DeviceFault> {
        let moved = self.file.write_at(bytes, Self::start_of(page));
        self.ended(moved)
    }
}
