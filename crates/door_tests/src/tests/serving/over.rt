//! Loads over a device in memory, by the lines of a text.
use super::caught::is_caught;
use crate::tests::asked_loads::served_of;
use crate::tests::loads::are_all_asked;
use crate::tests::screen::Screen;
use crate::tests::words::{compare, words_of};
use serve_load::{CacheShape, serve_over};
use std::alloc::Global;
use std::mem;
use std::random::RandomSource;
use std::sync::Wait;
use std::test::Fail;
use std::thread::Threads;
use std::time::Clock;
use test_devices::{Scripted, StaleDevice, TextStep, is, run_line};

/// The words of the load that is run after the line, if there are some, and from which write on the first page of its device goes
/// back; and what the last load ended with and wrote. Its status has to be asked for.
#[derive(Drop)]
struct Over {
    words: Vec<String>,
    writes: u32,
    status: u8,
    is_asked: bool,
    out: Vec<u8>,
    screen: Screen,
}

impl Scripted for Over {
    ghost use Rattle.std.specs.Prelude.{⊤};

    ghost can_act = { ⊤ };

    fn act(&mut self, alloc: Global, step: &mut TextStep<'_>) -> Result<(), Fail> {
        let word = step.word();
        if !self.words.is_empty() {
            // It is run after the line, so it is the line's last step.
            step.refuse();
        } else if is(word, b"k") {
            self.words = words_of(alloc, word, step)?;
            if !self.is_asked {
                step.refuse();
            }
            self.is_asked = false;
        } else if is(word, b"status") {
            self.is_asked = true;
            step.tell_number(u64::from(self.status));
        } else if is(word, b"stale") {
            self.writes = 4;
        } else if is(word, b"err") {
            compare(self.screen.bytes.as_slice(), step.word(), step);
        } else if is(word, b"caught") {
            tell_missed(self.out.as_slice(), self.screen.bytes.as_slice(), step);
        } else {
            compare(self.out.as_slice(), word, step);
        }
        Ok(())
    }
}

/// Runs the load of one lane whose words were taken, if there are some.
fn run_taken<R: Threads + Wait + Sync + AllocGlobal + Clock + RandomSource>(
    rt: &R,
    over: &mut Over,
) -> Result<(), Fail> {
    let words = mem::replace(&mut over.words, Vec::new(rt.alloc()));
    if words.is_empty() {
        return Ok(());
    }
    let load = served_of(rt.alloc(), words.as_slice())?;
    let shape = CacheShape::of(&*load)?;
    let devices = stale_devices(rt.alloc(), &shape, over.writes)?;
    over.out.clear();
    over.screen.bytes.clear();
    over.status = serve_over(rt, &*load, &shape, devices, &mut over.out, &mut over.screen);
    Ok(())
}

/// Tells the report of a load that did not end with a wrong hit.
fn tell_missed(out: &[u8], err: &[u8], step: &mut TextStep<'_>) {
    if !is_caught(
        str::from_utf8(out).unwrap_or(""),
        str::from_utf8(err).unwrap_or(""),
    ) {
        step.tell(out);
    }
}

/// A device for one lane, whose first page goes back from this write on.
fn stale_devices(
    alloc: Global,
    shape: &CacheShape,
    writes: u32,
) -> Result<Vec<StaleDevice<4096>>, Fail> {
    let mut devices = Vec::new(alloc);
    devices.push(StaleDevice::new(alloc, shape.pages(), 0, writes)?)?;
    Ok(devices)
}

/// Makes the steps of a text's lines, and runs the load of each line after it on a host, over a device of its own. It fails if there is no
/// step, or the status of a load was not asked for.
pub fn load_over<R: Threads + Wait + Sync + AllocGlobal + Clock + RandomSource>(
    rt: &R,
    text: &[u8],
) -> Result<(), Fail> {
    let mut over = Over {
        words: Vec::new(rt.alloc()),
        writes: u32::MAX,
        status: 0,
        is_asked: true,
        out: Vec::new(rt.alloc()),
        screen: Screen::new(rt.alloc()),
    };
    let (mut number, mut made) = (0u64, 0u64);
    for line in text.split(|b| *b == b'\n') {
        number = number.wrapping_add(1);
        made = made.wrapping_add(run_line(rt.alloc(), &mut over, number, line)?);
        run_taken(rt, &mut over)?;
    }
    are_all_asked(made, over.is_asked)
}
