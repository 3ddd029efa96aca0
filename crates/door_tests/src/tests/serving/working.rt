//! Times of operations, by a clock that only the device of a load moves on.
ghost use Rattle.std.specs.Prelude.{None, false};

use super::stepping::SteppingClock;
use crate::tests::asked_loads::served_by;
use crate::tests::screen::Screen;
use page_device::{DeviceFault, PageDevice};
use serve_load::{CacheShape, serve_over};
use std::random::RandomSource;
use std::sync::Wait;
use std::sync::atomic::{AtomicU64, Ordering};
use std::test::Fail;
use std::thread::Threads;
use std::time::Clock;

/// Pages of zeros that keep nothing. A read of one takes a thousand nanoseconds of a clock.
#[derive(Drop)]
struct SlowDevice<'a> {
    pages: u32,
    told: &'a AtomicU64,
}

impl<'a> PageDevice<4096> for SlowDevice<'a> {
    ghost page_count = { λ d. d.pages };

    ghost honest = { λ _. false };

    ghost held = { λ _ _. None };

    ghost failures = { λ _. 0 };

    fn pages(&self) -> u32 {
        self.pages
    }

    fn read(&mut self, page: u32, into: &mut [u8; 4096]) -> Result<(), DeviceFault> {
        *into = [0; 4096];
        self.told.fetch_add(1000, Ordering::SeqCst);
        Ok(())
    }

    fn write(&mut self, page: u32, bytes: &[u8; 4096]) -> Result<(), DeviceFault> {
        Ok(())
    }
}

/// Most keys are in the log, of which some pages are on the device; and no record is due to move, so gets alone read it.
const WORDS: &str =
    "k serve-load --lanes 1 --sets 3 --memory 4 --segments 64 --segment-pages 4 --callers 1 --workers 1 --operations 4000 --keys 300 --gets 60 --removes 0";

/// The report of the load over such a device.
fn report_over<R: Threads + Wait + Sync + AllocGlobal + Clock + RandomSource>(
    rt: &R,
    told: &AtomicU64,
) -> Result<Vec<u8>, Fail> {
    let load = served_by(rt.alloc(), WORDS)?;
    let shape = CacheShape::of(&*load)?;
    let mut devices = Vec::new(rt.alloc());
    devices.push(SlowDevice {
        pages: shape.pages(),
        told,
    })?;
    let mut out = Vec::new(rt.alloc());
    let mut err = Screen::new(rt.alloc());
    match serve_over(rt, &*load, &shape, devices, &mut out, &mut err) {
        0 => Ok(out),
        _ => Err("a load".into()),
    }
}

#[test]
fn a_get_is_timed_from_before_its_device_is_asked(rt: HostRuntime) -> Result<(), Fail> {
    let told = AtomicU64::new(0);
    let out = report_over(&SteppingClock::new(&rt, &told, 0), &told)?;
    let report = str::from_utf8(out.as_slice())?;
    assert!(rt; report.contains("\nget-max-ns ") && !report.contains("\nget-max-ns 0\n"));
    Ok(())
}
