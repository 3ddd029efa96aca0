//! What is not opened: a file in use, what is no regular file, a file that can't be made, a page that is too large.
use super::files::{Pages, has_length, keeps};
use super::late_names::LateNames;
use file_device::{FileDevice, FileOpenFault};
use std::alloc::Global;
use std::io::ErrorKind;
use std::os::fd::AsRawFd;
use std::rt::Files;
use std::test::Fail;
use std::{fs, io};

/// Whether a file is refused as one in use.
fn is_in_use<R: Files<File = fs::File>>(rt: &R, path: &str, pages: u32) -> bool {
    matches!(Pages::open(rt, path, pages), Err(FileOpenFault::InUse))
}

/// Whether a file is refused as no regular one.
fn is_not_regular<R: Files<File = fs::File>>(rt: &R, path: &str) -> bool {
    matches!(Pages::open(rt, path, 3), Err(FileOpenFault::NotRegular))
}

/// Whether a file can't be opened, and the system says why.
fn is_not_found<R: Files<File = fs::File>>(rt: &R, path: &str) -> bool {
    match Pages::open(rt, path, 3) {
        Err(FileOpenFault::Opening(error)) => error.kind() == ErrorKind::NotFound,
        _ => false,
    }
}

#[test]
fn a_file_in_use_is_refused_and_keeps_its_length(rt: HostRuntime) -> Result<(), Fail> {
    let _ = fs::remove_file(&rt, "used.pages");
    let first = Pages::open(&rt, "used.pages", 2)?;
    assert!(rt;
        is_in_use(&rt, "used.pages", 5)
            && is_in_use(&rt, "used.pages", 1)
            && has_length(&rt, "used.pages", 512)
    );
    drop(first);
    assert!(rt; keeps(&rt, "used.pages", 5, &[], &[]));
    Ok(fs::remove_file(&rt, "used.pages")?)
}

#[test]
fn a_folder_and_the_null_device_are_refused(rt: HostRuntime) -> Result<(), Fail> {
    assert!(rt;
        is_not_regular(&rt, ".")
            && is_not_regular(&rt, "/dev/null")
            && is_not_found(&rt, "no such folder/file.pages")
    );
    Ok(())
}

#[test]
fn a_pipe_without_a_writer_is_refused_by_its_name_and_opened(rt: HostRuntime) -> Result<(), Fail> {
    let (reader, writer) = io::pipe(&rt)?;
    drop(writer);
    let path = format!(in rt.alloc(); "/proc/self/fd/{}", reader.as_raw_fd())?;
    assert!(rt; is_not_regular(&rt, path.as_str()));
    // If it comes under the name late, it is opened, which does not wait.
    let late = LateNames { below: &rt };
    assert!(rt; is_not_regular(&late, path.as_str()));
    Ok(())
}

/// Whether a file with a page of 4,097 bytes is refused for that.
fn is_page_too_large<R: Files<File = fs::File>>(rt: &R, path: &str) -> bool {
    matches!(
        FileDevice::<4097>::open(rt, path, 1),
        Err(FileOpenFault::PageTooLarge)
    )
}

/// Whether a file with a page of 4,096 bytes is opened, and has that length.
fn has_a_largest_page<R: Files<File = fs::File>>(rt: &R, path: &str) -> bool {
    match FileDevice::<4096>::open(rt, path, 1) {
        Ok(_largest) => has_length(rt, path, 4096),
        Err(_) => false,
    }
}

#[test]
fn a_page_of_more_than_4096_bytes_is_refused(rt: HostRuntime) -> Result<(), Fail> {
    let _ = fs::remove_file(&rt, "large.pages");
    assert!(rt;
        is_page_too_large(&rt, "large.pages")
            && !fs::exists(&rt, "large.pages")?
            && has_a_largest_page(&rt, "large.pages")
    );
    Ok(fs::remove_file(&rt, "large.pages")?)
}

/// Whether a fault is told in these words.
fn is_told(alloc: Global, fault: FileOpenFault, words: &str) -> bool {
    match format!(in alloc; "{fault}") {
        Ok(told) => told.as_str() == words,
        Err(_) => false,
    }
}

#[test]
fn a_fault_is_told_with_the_cause_of_the_system(rt: HostRuntime) -> Result<(), Fail> {
    let alloc = rt.alloc();
    let none = FileOpenFault::Opening(io::Error::from_raw_os_error(2));
    let none_told = "the file can't be opened: No such file or directory (os error 2)";
    let full = FileOpenFault::Sizing(io::Error::from_raw_os_error(27));
    let full_told = "the length of the file can't be set: File too large (os error 27)";
    assert!(rt;
        is_told(alloc, none, none_told)
            && is_told(alloc, full, full_told)
            && is_told(alloc, FileOpenFault::InUse, "the file is in use")
            && is_told(alloc, FileOpenFault::NotRegular, "it is no regular file")
    );
    Ok(())
}
