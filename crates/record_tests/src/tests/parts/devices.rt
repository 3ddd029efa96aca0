//! Calls at both devices, and code that is proved from the laws of the trait alone.
ghost use Rattle.std.specs.Prelude.{◌≡◌, ◌<◌, IfOk, IsTrue};
ghost use Rattle.record_pages.specs.Sizes.{IsPageSize};

use page_device::{DeviceFault, FuseDevice, MemoryDevice, PageDevice};
use std::alloc::Global;
use std::test::Fail;

// Writes a page and reads it back: on any honest device that fails in neither call these are the bytes.
fn write_and_read_back<const PAGE: usize, D: PageDevice<PAGE>>(
    device: &mut D,
    page: u32,
    bytes: &[u8; PAGE],
) -> Result<[u8; PAGE], DeviceFault>
    requires page_size { IsPageSize PAGE }
    requires in_range { page < D.page_count device.old }
    ensures pages { D.page_count device.new ≡ D.page_count device.old }
    ensures read_back { IsTrue (D.honest device.old) → IfOk result (λ read. read ≡ bytes.now) }
{
    let mut read = [0; PAGE];
    device.write(page, bytes)?;
    device.read(page, &mut read)?;
    Ok(read)
}

/// A call of a device: a page, the byte that is written all over it or stands there, and whether the call is refused.
#[derive(Clone, Copy)]
enum Step {
    Write(u32, u8),
    NoWrite(u32, u8),
    Read(u32, u8),
    NoRead(u32),
}

fn writes<D: PageDevice<256>>(device: &mut D, page: u32, byte: u8) -> bool {
    page < device.pages() && device.write(page, &[byte; 256]).is_ok()
}

// The byte that stands all over a page.
fn read<D: PageDevice<256>>(device: &mut D, page: u32) -> Option<u8> {
    let mut bytes = [0; 256];
    if page >= device.pages() || device.read(page, &mut bytes).is_err() {
        return None;
    }
    let byte = *bytes.first()?;
    if bytes == [byte; 256] {
        Some(byte)
    } else {
        None
    }
}

fn gives<D: PageDevice<256>>(device: &mut D, step: &Step) -> bool {
    match step {
        Step::Write(page, byte) => writes(device, *page, *byte),
        Step::NoWrite(page, byte) => !writes(device, *page, *byte),
        Step::Read(page, byte) => read(device, *page) == Some(*byte),
        Step::NoRead(page) => read(device, *page).is_none(),
    }
}

// The number of the first step that gives something else than is written.
fn strayed<D: PageDevice<256>>(mut device: D, steps: &[Step]) -> Option<usize> {
    for number in 0..steps.len() {
        if !gives(&mut device, &steps[number]) {
            return Some(number);
        }
    }
    None
}

#[test]
fn a_page_is_read_back_through_the_trait(rt: HostRuntime) -> Result<(), Fail> {
    let mut device = MemoryDevice::<256>::new(rt.alloc(), 2)?;
    let read = write_and_read_back(&mut device, 1, &[7; 256])?;
    let kept = strayed(device, &[Step::Read(1, 7), Step::Read(0, 0)]).is_none();
    assert!(rt; read == [7; 256] && kept);
    Ok(())
}

static SECOND_IS_REFUSED: [Step; 4] = [
    Step::Write(0, 7),
    Step::NoWrite(1, 8),
    Step::Read(0, 7),
    Step::Read(1, 0),
];

static SECOND_IS_THE_LAST: [Step; 3] = [Step::Write(0, 7), Step::NoWrite(1, 8), Step::NoRead(0)];

static NONE_IS_REFUSED: [Step; 2] = [Step::Write(0, 7), Step::Read(0, 7)];

static ALL_ARE_REFUSED: [Step; 2] = [Step::NoWrite(0, 7), Step::NoRead(0)];

static THIRD_IS_MADE_AGAIN: [Step; 4] = [
    Step::Write(0, 7),
    Step::Read(0, 7),
    Step::NoRead(0),
    Step::Read(0, 7),
];

// Whether two pages give what is written if one call is refused, none if the number is 0.
fn gives_at_one(alloc: Global, number: u32, steps: &[Step]) -> bool {
    match MemoryDevice::<256>::new(alloc, 2) {
        Ok(device) => strayed(FuseDevice::one(device, number), steps).is_none(),
        Err(_) => false,
    }
}

// Whether they do if all calls from one on are refused.
fn gives_from(alloc: Global, number: u32, steps: &[Step]) -> bool {
    match MemoryDevice::<256>::new(alloc, 2) {
        Ok(device) => strayed(FuseDevice::from(device, number), steps).is_none(),
        Err(_) => false,
    }
}

/// Number 0 stands before the first call.
#[test]
fn a_fuse_refuses_by_number(rt: HostRuntime) {
    let alloc = rt.alloc();
    assert!(rt;
        gives_at_one(alloc, 2, &SECOND_IS_REFUSED)
            && gives_at_one(alloc, 0, &NONE_IS_REFUSED)
            && gives_from(alloc, 2, &SECOND_IS_THE_LAST)
            && gives_from(alloc, 0, &ALL_ARE_REFUSED)
    );
}

// Whether two pages give what is written through a fuse that refuses no call, over one that refuses the third.
fn gives_over_a_fuse(alloc: Global, steps: &[Step]) -> bool {
    match MemoryDevice::<256>::new(alloc, 2) {
        Ok(device) => {
            let below = FuseDevice::one(device, 3);
            strayed(FuseDevice::one(below, 0), steps).is_none()
        }
        Err(_) => false,
    }
}

/// A write or a read that was passed on twice would be the third call below too soon.
#[test]
fn a_fuse_over_a_fuse_passes_each_call_on_once(rt: HostRuntime) {
    assert!(rt; gives_over_a_fuse(rt.alloc(), &THIRD_IS_MADE_AGAIN));
}
