//! Pages of one byte each, and what a file is outside its device.
use file_device::FileDevice;
use page_device::PageDevice;
use std::fs;
use std::fs::OpenOptions;
use std::os::unix::fs::PermissionsExt;
use std::rt::Files;

/// The devices of these tests have pages of 256 bytes.
pub type Pages = FileDevice<256>;

/// Whether a page that the device has is written, with this byte throughout.
pub fn writes(device: &mut Pages, page: u32, byte: u8) -> bool {
    page < device.pages() && device.write(page, &[byte; 256]).is_ok()
}

/// Whether a page that the device has is read, and holds this byte throughout.
pub fn reads(device: &mut Pages, page: u32, byte: u8) -> bool {
    let mut bytes = [byte ^ 255; 256];
    page < device.pages() && device.read(page, &mut bytes).is_ok() && bytes == [byte; 256]
}

/// Whether these pages, which the device has, are written, each with its byte.
fn are_written(device: &mut Pages, pages: &[(u32, u8)]) -> bool {
    for (page, byte) in pages {
        if !writes(device, *page, *byte) {
            return false;
        }
    }
    true
}

/// Whether these pages, which the device has, are read, and each holds its byte.
fn are_read(device: &mut Pages, pages: &[(u32, u8)]) -> bool {
    for (page, byte) in pages {
        if !reads(device, *page, *byte) {
            return false;
        }
    }
    true
}

/// Whether a file is opened with this many pages and has just their bytes, some of its pages are written, and then these
/// pages are read. The device is closed at the end.
pub fn keeps<R: Files<File = fs::File>>(
    rt: &R,
    path: &str,
    pages: u32,
    written: &[(u32, u8)],
    read: &[(u32, u8)],
) -> bool {
    match Pages::open(rt, path, pages) {
        Ok(mut device) => {
            are_written(&mut device, written)
                && has_length(rt, path, u64::from(pages) * 256)
                && are_read(&mut device, read)
        }
        Err(_) => false,
    }
}

/// Whether a file is there and has this many bytes.
pub fn has_length<R: Files>(rt: &R, path: &str, bytes: u64) -> bool {
    match fs::metadata(rt, path) {
        Ok(found) => found.len() == bytes,
        Err(_) => false,
    }
}

/// Whether a file is there, and this is what its owner, its group and others may do.
pub fn has_mode<R: Files>(rt: &R, path: &str, mode: u32) -> bool {
    match fs::metadata(rt, path) {
        Ok(found) => found.permissions().mode() & 0o777 == mode,
        Err(_) => false,
    }
}

/// Whether a file got this length, behind the back of its device.
pub fn is_cut<R: Files<File = fs::File>>(rt: &R, path: &str, bytes: u64) -> bool {
    match OpenOptions::new().write(true).open(rt, path) {
        Ok(file) => file.set_len(bytes).is_ok(),
        Err(_) => false,
    }
}
