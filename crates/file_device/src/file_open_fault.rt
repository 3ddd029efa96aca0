// Why no file was opened as a device.
ghost use Rattle.file_device.specs.Faults.{IsToldAs};

use std::io;
use std::io::ErrorKind;
use thiserror::Error;

/// Why no file was opened as a device. If the system said why, its error is kept.
///
/// The length is set last. So each refusal but `Sizing` and `OutOfMemory` leaves a file that was there as it was. A
/// file that was made before the refusal stays, empty.
#[derive(Clone, Copy, Debug, Error)]
pub enum FileOpenFault {
    /// A page has more than 4096 bytes. No file was made or opened.
    #[error("a page has more than 4096 bytes")]
    PageTooLarge,
    /// The file could not be opened, made or asked what it is.
    #[error("the file can't be opened: {0}")]
    Opening(io::Error),
    /// Another device has the file, in this process or in another one, or another program has locked it.
    #[error("the file is in use")]
    InUse,
    /// The file could not be locked, for another reason than that it is in use.
    #[error("the file can't be locked: {0}")]
    Locking(io::Error),
    /// It is a folder, a pipe, a terminal or the like.
    #[error("it is no regular file")]
    NotRegular,
    /// The file could not be given its length. Nothing is said of what length it has.
    #[error("the length of the file can't be set: {0}")]
    Sizing(io::Error),
    /// The system had no memory for one of these calls. If it was the last, nothing is said of the file's length.
    #[error("out of memory")]
    OutOfMemory,
}

/// How an error is reported: as want of memory if it says that, and otherwise as the fault that keeps it.
pub(crate) fn told_as(error: io::Error, keeping: FileOpenFault) -> FileOpenFault
    ensures { IsToldAs error keeping result }
{
    if error.kind() == ErrorKind::OutOfMemory {
        return FileOpenFault::OutOfMemory;
    }
    keeping
}
