//! The calls of a recorded lane, by their words. A call that memory is refused records nothing, and is made once more.
ghost use Rattle.std.specs.Prelude.{◌≡◌, ◌<◌, All, IfOk, IsTrue};

use super::*;

// The pages of a set and of two segments.
const PAGES: u32 = 3;

/// A lane that steps open, and the call of the next one's device that is refused, from 1, or 0.
#[derive(Drop)]
struct Called {
    refused: u32,
    lane: Option<Box<Lane>>,
}

impl Scripted for Called {
    ghost use Rattle.std.specs.Prelude.{⊤};

    ghost can_act = { ⊤ };

    fn act(&mut self, alloc: Global, step: &mut TextStep<'_>) -> Result<(), Fail> {
        let word = step.word();
        if is(word, b"refuse") {
            self.refused = step.small();
            return Ok(());
        }
        if is(word, b"open") {
            self.lane = Some(opened(alloc, self.refused, step)?);
            self.refused = 0;
            return Ok(());
        }
        if is(word, b"end") {
            return end(self.lane.take(), step);
        }
        match &mut self.lane {
            Some(lane) => call(alloc, &mut **lane, word, step),
            None => Err("a lane".into()),
        }
    }
}

/// Makes the calls of a text, of lanes that it opens.
pub fn play(alloc: Global, text: &[u8]) -> Result<(), Fail> {
    let mut called = Called {
        refused: 0,
        lane: None,
    };
    run_text(alloc, &mut called, text)
}

// The lane of a number and a configuration, opened once more if memory was refused.
fn opened(alloc: Global, refused: u32, step: &mut TextStep<'_>) -> Result<Box<Lane>, Fail> {
    let number = step.small();
    let config = step.config();
    if number >= config.lanes {
        return Err("a lane that is not there".into());
    }
    let lane = match RecordedLane::open(alloc, &config, number, device(alloc, refused)?) {
        Ok(lane) => lane,
        Err(_) => RecordedLane::open(alloc, &config, number, device(alloc, refused)?)?,
    };
    Ok(Box::new(alloc, lane)?)
}

fn device(alloc: Global, refused: u32) -> Result<FuseDevice<MemoryDevice<256>>, AllocError> {
    Ok(FuseDevice::one(MemoryDevice::new(alloc, PAGES)?, refused))
}

// Ends a lane. Tells how many calls are given back, the end of the last, and how many pages the device has.
fn end(lane: Option<Box<Lane>>, step: &mut TextStep<'_>) -> Result<(), Fail> {
    let Some(lane) = lane else {
        return Err("a lane".into());
    };
    let parts = Box::into_inner(lane).into_parts();
    tell_last(&parts.calls, step);
    step.tell_number(u64::from(parts.device.pages()));
    Ok(())
}

fn tell_last(calls: &History, step: &mut TextStep<'_>) {
    let count = calls.len();
    step.tell_number(count as u64);
    step.tell_number(if count == 0 {
        0
    } else {
        calls.at(count - 1).end
    });
}

// Makes the call that a word names, and tells what it gives, and what is recorded of it.
fn call(alloc: Global, lane: &mut Lane, word: &[u8], step: &mut TextStep<'_>) -> Result<(), Fail> {
    let before = lane.len();
    if is(word, b"put") || is(word, b"get") || is(word, b"remove") {
        recorded(alloc, lane, word, step)?;
    } else if is(word, b"forget") {
        lane.forget(&step.key(alloc)?);
    } else if is(word, b"flush") {
        step.tell(name_of_flush(lane.flush_step()));
    } else if is(word, b"move") {
        step.tell(moved(lane)?);
    } else {
        look(lane, word, step);
    }
    tell_noted(lane, before, step);
    Ok(())
}

// Tells the call that was recorded after so many, if there is one: its caller, start, point and key, and what it did.
fn tell_noted(lane: &Lane, before: usize, step: &mut TextStep<'_>) {
    let count = lane.len();
    if count == before {
        return;
    }
    if count < before || count - before > 1 {
        step.refuse();
        return;
    }
    let last = lane.at(before);
    step.tell(b"as");
    step.tell_number(u64::from(last.caller));
    step.tell_number(last.start);
    step.tell_number(last.point);
    step.tell(last.key);
    tell_act(last.act, step);
}

// Tells what a lane shows of itself.
fn look(lane: &Lane, word: &[u8], step: &mut TextStep<'_>) {
    if is(word, b"is") {
        step.tell_number(u64::from(lane.lane()));
        tell_config(lane, step);
    } else if is(word, b"count") {
        step.tell_number(lane.len() as u64);
        step.tell_number(lane.last_point());
        if lane.is_empty() {
            step.tell(b"empty");
        }
    } else if is(word, b"acts") {
        tell_acts(lane, step);
    } else {
        step.refuse();
    }
}

fn tell_config(lane: &Lane, step: &mut TextStep<'_>) {
    let config = lane.config();
    step.tell_number(u64::from(config.lanes));
    step.tell_number(u64::from(config.sets));
    step.tell_number(u64::from(config.memory));
    step.tell_number(u64::from(config.segments));
    step.tell_number(u64::from(config.segment_pages));
    step.tell_number(u64::from(config.entries));
    step.tell_number(u64::from(config.threshold));
    step.tell_number(u64::from(config.admit));
}

// Tells the letters of what the calls of a lane did, in order: put, remove, hit or miss.
fn tell_acts(lane: &Lane, step: &mut TextStep<'_>) {
    let mut letters = Spelled::new();
    for number in 0..lane.len() {
        if letters.try_push(letter_of(lane.at(number).act)).is_err() {
            step.refuse();
        }
    }
    step.tell(letters.as_slice());
}

fn letter_of(act: ActRef<'_>) -> u8 {
    match act {
        ActRef::Put(..) => b'p',
        ActRef::Remove => b'r',
        ActRef::Hit(..) => b'h',
        ActRef::Miss => b'm',
    }
}

// Makes a whole move, once more if memory was refused.
fn moved(lane: &mut Lane) -> Result<&'static [u8], Fail> {
    let moved = match lane.move_whole(&Rriparoo) {
        Ok(moved) => moved,
        Err(_) => lane.move_whole(&Rriparoo)?,
    };
    Ok(match moved {
        MovedWhole::Written => b"written",
        _ => b"another way",
    })
}

/// A call that is recorded: its word, its key, and the value and the word of a put.
#[derive(Clone, Copy)]
struct Asked<'a> {
    word: &'a [u8],
    name: &'a [u8],
    bytes: &'a [u8],
    low: u32,
}

// Makes a call that is recorded, once more if memory was refused.
fn recorded(
    alloc: Global,
    lane: &mut Lane,
    word: &[u8],
    step: &mut TextStep<'_>,
) -> Result<(), Fail> {
    let name = step.bytes();
    let is_put = is(word, b"put");
    let bytes = if is_put { step.bytes() } else { Spelled::new() };
    let asked = Asked {
        word,
        name: name.as_slice(),
        bytes: bytes.as_slice(),
        low: if is_put { step.small() } else { 0 },
    };
    if !is_answered(alloc, lane, &asked, step)? && !is_answered(alloc, lane, &asked, step)? {
        step.tell(b"out of memory");
    }
    Ok(())
}

// Makes such a call once, and tells its answer unless memory was refused. Its caller is the number of the calls before it, and so
// is the moment of a get.
fn is_answered(
    alloc: Global,
    lane: &mut Lane,
    asked: &Asked<'_>,
    step: &mut TextStep<'_>,
) -> Result<bool, Fail> {
    let caller = (lane.len() % 65536) as u16;
    let point = next_point(lane)?;
    let key = own_key(alloc, lane, asked.name)?;
    if is(asked.word, b"get") {
        let answer = lane.get(caller, point - 1, point, &key, u64::from(caller));
        return Ok(is_got(answer, step));
    }
    if is(asked.word, b"remove") {
        return Ok(lane.remove(caller, point - 1, point, &key).is_ok());
    }
    let value = value(alloc, asked.bytes)?;
    let stored = lane.put(caller, point - 1, point, key, value, asked.low, NEVER);
    Ok(is_stored(stored, step))
}

fn is_got(answer: Result<Answer, RecordFault>, step: &mut TextStep<'_>) -> bool {
    match answer {
        Ok(answer) => {
            tell_answer(&answer, step);
            true
        }
        Err(_) => false,
    }
}

fn is_stored(stored: Result<Pushed, RecordPutFault>, step: &mut TextStep<'_>) -> bool {
    match stored {
        Ok(pushed) => {
            step.tell(name_of_pushed(pushed));
            true
        }
        Err(RecordPutFault::TooLarge) => {
            step.tell(b"too large");
            true
        }
        Err(_) => false,
    }
}

// The point of the next call of a lane, which starts just before it.
fn next_point(lane: &Lane) -> Result<u64, Fail>
    ensures start { IfOk result (λ p. 0 < p) }
    ensures rises { IfOk result (λ p. All (λ n. n.point < p) lane.now.calls) }
{
    match lane.last_point().checked_add(2) {
        Some(point) => Ok(point),
        None => Err("stamps".into()),
    }
}

// Whether a key belongs to a lane.
fn is_own<D: PageDevice<PAGE>, const PAGE: usize>(lane: &RecordedLane<D, PAGE>, key: &Key) -> bool
    ensures { IsTrue result → IsOfLane lane.now.store.layout lane.now.lane key.now }
{
    let layout = lane.layout();
    place(&layout, key.bytes()).lane == lane.lane()
}

ghost use Rattle.recorded_lane.specs.Lane.{IsOfLane};

// A key, if it belongs to a lane.
fn own_key(alloc: Global, lane: &Lane, name: &[u8]) -> Result<Key, Fail>
    ensures { IfOk result (λ key. IsOfLane lane.now.store.layout lane.now.lane key) }
{
    let key = key(alloc, name)?;
    if is_own(lane, &key) {
        Ok(key)
    } else {
        Err("a key of another lane".into())
    }
}
