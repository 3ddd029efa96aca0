// How a file is opened that no one else has.
ghost use Rattle.std.specs.Prelude.{◌≢◌, ◌↔◌, IfErr, IsOk, IsOkUnless};
ghost use Rattle.std.specs.Fs.{file_type, IsFile};
ghost use Rattle.file_device.specs.Faults.{TellsMemoryApart};

use crate::file_open_fault::{FileOpenFault, told_as};
use std::fs;
use std::fs::{File, Metadata, OpenOptions, TryLockError};
use std::os::unix::fs::OpenOptionsExt;
use std::rt::Files;

/// Opens a regular file and locks it, or makes it if it is absent. Its bytes stay as they are.
pub fn open_locked<R: Files<File = File>>(rt: &R, path: &str) -> Result<File, FileOpenFault>
    ensures page { IfErr result (λ fault. fault ≢ FileOpenFault.PageTooLarge) }
    ensures memory { IfErr result TellsMemoryApart }
{
    // What is seen to be a folder, a pipe or a terminal is not even opened: that might wait, or do something.
    if let Ok(found) = fs::metadata(rt, path) {
        test_regular(&found)?;
    }
    let file = open_or_make(rt, path)?;
    lock(&file)?;
    // Another file may have come under the name since it was looked at.
    match file.metadata() {
        Ok(found) => test_regular(&found)?,
        Err(error) => return Err(told_as(error, FileOpenFault::Opening(error))),
    }
    Ok(file)
}

/// Opens a file for reading and writing, or makes it, for its owner alone.
fn open_or_make<R: Files<File = File>>(rt: &R, path: &str) -> Result<File, FileOpenFault>
    ensures page { IfErr result (λ fault. fault ≢ FileOpenFault.PageTooLarge) }
    ensures memory { IfErr result TellsMemoryApart }
{
    match OpenOptions::new()
        .read(true)
        .write(true)
        .create(true)
        .mode(0o600)
        .open(rt, path)
    {
        Ok(file) => Ok(file),
        Err(error) => Err(told_as(error, FileOpenFault::Opening(error))),
    }
}

/// Locks a file for this open of it alone. It does not wait.
fn lock(file: &File) -> Result<(), FileOpenFault>
    ensures page { IfErr result (λ fault. fault ≢ FileOpenFault.PageTooLarge) }
    ensures memory { IfErr result TellsMemoryApart }
{
    match file.try_lock() {
        Ok(()) => Ok(()),
        Err(TryLockError::WouldBlock) => Err(FileOpenFault::InUse),
        Err(TryLockError::Error(error)) => Err(told_as(error, FileOpenFault::Locking(error))),
    }
}

/// Refuses what is no regular file.
fn test_regular(found: &Metadata) -> Result<(), FileOpenFault>
    ensures exactly { IsOk result ↔ IsFile (file_type found.now) }
    ensures fault { IsOkUnless result FileOpenFault.NotRegular }
{
    if found.is_file() {
        return Ok(());
    }
    Err(FileOpenFault::NotRegular)
}
