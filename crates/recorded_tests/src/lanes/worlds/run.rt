//! The events of a world, by their words, and what is played of them.
use super::super::super::texts::{caller_of, tell_act};
use certificate_checker::{Verdict, check};
use file_device::FileDevice;
use history_recorder::{Event, Operation, Played, Replies, Reply, World, play};
use klog::Flushed;
use mover::{Aborted, Begin, Committed};
use page_device::{FuseDevice, MemoryDevice, PageDevice};
use policy_laws::{Choice, Plan};
use record_pages::{Answer, Config, MissCause, NEVER, Prediction, Tier};
use recorded_lane::RecordPutFault;
use std::alloc::Global;
use std::fs;
use std::fs::File;
use std::rt::Files;
use std::test::Fail;
use test_devices::{Scripted, Spelled, TextStep, is, run_text};
use trace_file::{Certificate, History};

// How many callers a world has.
const CALLERS: u16 = 3;

// Where the pages of a lane lie that is played over a file.
const PATH: &str = "fused.pages";

/// A world that steps describe, and what was played in it last. It has lanes of two segments of one page.
#[derive(Drop)]
struct Told<'a, R> {
    rt: &'a R,
    config: Config,
    refused: Refused,
    events: Vec<Event>,
    played: Option<Box<Played>>,
}

/// Which call of each device is refused, from 1, alone or with all later ones; alone with number 0 none is.
#[derive(Clone, Copy)]
struct Refused {
    call: u32,
    for_good: bool,
}

const NONE_REFUSED: Refused = Refused {
    call: 0,
    for_good: false,
};

impl<'a, R: Files<File = File>> Scripted for Told<'a, R> {
    ghost use Rattle.std.specs.Prelude.{⊤};

    ghost can_act = { ⊤ };

    fn act(&mut self, alloc: Global, step: &mut TextStep<'_>) -> Result<(), Fail> {
        let word = step.word();
        if is(word, b"world") {
            self.begin(alloc, step);
        } else if is(word, b"refuse") || is(word, b"refuse-from") {
            self.refused = Refused {
                call: step.small(),
                for_good: is(word, b"refuse-from"),
            };
        } else if is(word, b"play") || is(word, b"play-file") {
            return self.play(alloc, is(word, b"play-file"), step);
        } else if is(word, b"whichever") {
            return self.play_each(alloc, step);
        } else if is(word, b"count") || is(word, b"call") || is(word, b"order") {
            self.look(word, step);
        } else {
            return add(alloc, &mut self.events, word, step);
        }
        Ok(())
    }
}

impl<'a, R: Files<File = File>> Told<'a, R> {
    // Begins to describe a world of lanes and sets, with room for objects in memory.
    fn begin(&mut self, alloc: Global, step: &mut TextStep<'_>) {
        self.config = Config {
            lanes: step.small(),
            sets: step.small(),
            memory: step.small(),
            ..ONE_LANE
        };
        self.refused = NONE_REFUSED;
        self.events = Vec::new(alloc);
    }

    // Plays over memory or over a file, and tells the letters of the replies, and whether the checker accepts the calls. If memory
    // was refused to one of the acts or moves, what was answered is accepted too, and it is played once more.
    fn play(
        &mut self,
        alloc: Global,
        over_file: bool,
        step: &mut TextStep<'_>,
    ) -> Result<(), Fail> {
        let mut played = self.once(alloc, over_file, self.refused)?;
        if lacks_memory(&played.replies) && is_accepted(alloc, &*played)? {
            played = self.once(alloc, over_file, self.refused)?;
        }
        step.tell(letters_of(&played.replies).as_slice());
        tell_verdict(is_accepted(alloc, &*played)?, step);
        self.played = Some(played);
        Ok(())
    }

    // Plays with each call of a device up to a number refused in turn, alone and with all after it, over memory and over a file, and
    // tells whether all is accepted.
    fn play_each(&mut self, alloc: Global, step: &mut TextStep<'_>) -> Result<(), Fail> {
        let mut are_accepted = true;
        for place in 0..4 * (step.small() % 256) {
            let refused = Refused {
                call: place / 4 + 1,
                for_good: place % 2 == 1,
            };
            let played = self.once(alloc, place / 2 % 2 == 1, refused)?;
            are_accepted = is_accepted(alloc, &*played)? && are_accepted;
        }
        tell_verdict(are_accepted, step);
        Ok(())
    }

    // Plays with calls of each device refused, once more if memory was refused.
    fn once(&self, alloc: Global, over_file: bool, refused: Refused) -> Result<Box<Played>, Fail> {
        let mut played = self.tried(alloc, over_file, refused)?;
        if played.is_none() {
            played = self.tried(alloc, over_file, refused)?;
        }
        match played {
            Some(played) => Ok(played),
            None => Err("out of memory".into()),
        }
    }

    // Plays over memory, or over a new file that is removed then; nothing if memory was refused.
    fn tried(
        &self,
        alloc: Global,
        over_file: bool,
        refused: Refused,
    ) -> Result<Option<Box<Played>>, Fail> {
        if !over_file {
            return self.over_memory(alloc, refused);
        }
        let _ = fs::remove_file(self.rt, PATH);
        let file = FileDevice::<256>::open(self.rt, PATH, self.pages())?;
        let mut devices = Vec::new(alloc);
        devices.push(fused(file, refused))?;
        let played = played_over(alloc, &self.config, devices, self.events.as_slice())?;
        fs::remove_file(self.rt, PATH)?;
        Ok(played)
    }

    fn over_memory(&self, alloc: Global, refused: Refused) -> Result<Option<Box<Played>>, Fail> {
        let mut devices = Vec::new(alloc);
        for _ in 0..self.config.lanes {
            let memory = MemoryDevice::<256>::new(alloc, self.pages())?;
            devices.push(fused(memory, refused))?;
        }
        played_over(alloc, &self.config, devices, self.events.as_slice())
    }

    // The pages of the sets and of two segments.
    fn pages(&self) -> u32 {
        self.config.sets.wrapping_add(2)
    }

    // Tells how many calls were played, a call, or the order of the certificate.
    fn look(&self, word: &[u8], step: &mut TextStep<'_>) {
        let Some(played) = &self.played else {
            step.refuse();
            return;
        };
        if is(word, b"count") {
            step.tell_number(played.history.len() as u64);
        } else if is(word, b"call") {
            tell_call(&played.history, step);
        } else {
            tell_order(&played.certificate, step);
        }
    }
}

// A world of one lane.
const ONE_LANE: Config = Config {
    lanes: 1,
    sets: 1,
    memory: 4,
    segments: 2,
    segment_pages: 1,
    entries: 16,
    threshold: 1,
    admit: 65536,
};

/// Plays the text of a test.
pub fn play_text<R: Files<File = File>>(rt: &R, alloc: Global, text: &[u8]) -> Result<(), Fail> {
    let mut told = Told {
        rt,
        config: ONE_LANE,
        refused: NONE_REFUSED,
        events: Vec::new(alloc),
        played: None,
    };
    run_text(alloc, &mut told, text)
}

// A device of which these calls are refused.
fn fused<D>(inner: D, refused: Refused) -> FuseDevice<D> {
    if refused.for_good {
        FuseDevice::from(inner, refused.call)
    } else {
        FuseDevice::one(inner, refused.call)
    }
}

// What is played of events over these devices; nothing if memory was refused.
fn played_over<D: PageDevice<256>>(
    alloc: Global,
    config: &Config,
    devices: Vec<D>,
    events: &[Event],
) -> Result<Option<Box<Played>>, Fail> {
    let world = World::open(alloc, config, devices, CALLERS)?;
    match play(alloc, world, events) {
        Ok(played) => Ok(Some(Box::new(alloc, played)?)),
        Err(_) => Ok(None),
    }
}

// Adds the event that a word names; `get`, `put` and `remove` add those of a whole call, with nothing between.
fn add(
    alloc: Global,
    events: &mut Vec<Event>,
    word: &[u8],
    step: &mut TextStep<'_>,
) -> Result<(), Fail> {
    if is(word, b"begin") {
        let word = step.word();
        let caller = caller_of(step);
        events.push(Event::Begin(caller, operation(alloc, word, step)?))?;
    } else if is(word, b"get") || is(word, b"put") || is(word, b"remove") {
        let caller = caller_of(step);
        events.push(Event::Begin(caller, operation(alloc, word, step)?))?;
        events.push(Event::Act(caller))?;
        events.push(Event::End(caller))?;
    } else {
        events.push(event(alloc, word, step)?)?;
    }
    Ok(())
}

// What a call asks that begins.
fn operation(alloc: Global, word: &[u8], step: &mut TextStep<'_>) -> Result<Operation, Fail> {
    let key = step.key(alloc)?;
    Ok(if is(word, b"get") {
        Operation::Get(key, 0)
    } else if is(word, b"put") {
        Operation::Put(key, step.value(alloc)?, 0, NEVER)
    } else {
        Operation::Remove(key)
    })
}

// An event that begins no call.
fn event(alloc: Global, word: &[u8], step: &mut TextStep<'_>) -> Result<Event, Fail> {
    let number = step.small();
    if is(word, b"act") {
        return Ok(Event::Act((number % 65536) as u16));
    }
    if is(word, b"end") {
        return Ok(Event::End((number % 65536) as u16));
    }
    if is(word, b"flush") {
        return Ok(Event::Flush(number));
    }
    if is(word, b"move") {
        return Ok(Event::MoveBegin(number));
    }
    if is(word, b"commit") {
        let plan = plan(alloc, step.small() as usize)?;
        return Ok(Event::Commit(number, plan, step.number()));
    }
    if is(word, b"abort") {
        return Ok(Event::Abort(number, step.number()));
    }
    Err("an event".into())
}

// The plan that keeps this item alone.
fn plan(alloc: Global, item: usize) -> Result<Plan, Fail> {
    let prediction = Prediction::new(6).unwrap();
    let mut plan = Plan::new(alloc);
    plan.push(Choice { item, prediction })?;
    Ok(plan)
}

fn is_accepted(alloc: Global, played: &Played) -> Result<bool, Fail> {
    let verdict = match check(alloc, &played.history, &played.certificate) {
        Ok(verdict) => verdict,
        Err(_) => check(alloc, &played.history, &played.certificate)?,
    };
    Ok(verdict == Verdict::Accepted)
}

fn tell_verdict(is_accepted: bool, step: &mut TextStep<'_>) {
    step.tell(if is_accepted {
        b"accepted"
    } else {
        b"rejected"
    });
}

// Takes a position, and tells the call there: its caller, start, end and key, and what it did.
fn tell_call(history: &History, step: &mut TextStep<'_>) {
    let position = step.small() as usize;
    if position >= history.len() {
        step.refuse();
        return;
    }
    let call = history.at(position);
    step.tell(b"by");
    step.tell_number(u64::from(call.caller));
    step.tell_number(call.start);
    step.tell_number(call.end);
    step.tell(call.key);
    tell_act(call.act, step);
}

// Tells the positions of a certificate.
fn tell_order(certificate: &Certificate, step: &mut TextStep<'_>) {
    for place in 0..certificate.len() {
        step.tell_number(u64::from(certificate.at(place)));
    }
}

// The letters of replies: those of three are of a whole call, one is of any other event.
fn letters_of(replies: &Replies) -> Spelled {
    let mut letters = Spelled::new();
    for number in 0..replies.len() {
        if letters.try_push(letter(replies.at(number))).is_err() {
            return Spelled::new();
        }
    }
    letters
}

// Whether an act or the beginning of a move was refused memory.
fn lacks_memory(replies: &Replies) -> bool {
    letters_of(replies).as_slice().iter().any(|l| *l == b'x')
}

fn letter(reply: &Reply) -> u8 {
    match reply {
        Reply::Ignored => b'-',
        Reply::Begun(_) => b'b',
        Reply::Ended(_) => b'e',
        Reply::Got(Ok(answer)) => letter_of_answer(answer),
        Reply::Stored(Ok(_)) => b'p',
        Reply::Stored(Err(RecordPutFault::TooLarge)) => b't',
        Reply::Removed(Ok(())) => b'r',
        Reply::Flushed(flushed) => letter_of_flush(*flushed),
        Reply::MoveBegun(Ok(begun)) => letter_of_begin(begun),
        Reply::Committed(committed) => letter_of_commit(*committed),
        Reply::Aborted(Aborted::Aborted) => b'A',
        Reply::Aborted(Aborted::StalePlan) => b'S',
        _ => b'x',
    }
}

fn letter_of_answer(answer: &Answer) -> u8 {
    match answer {
        Answer::Hit(_, Tier::Set) => b'h',
        Answer::Hit(_, _) => b'H',
        Answer::Miss(MissCause::Absent) => b'm',
        Answer::Miss(MissCause::Fault) => b'u',
        Answer::Miss(MissCause::Damaged) => b'd',
        Answer::Miss(MissCause::Expired) => b'o',
    }
}

fn letter_of_flush(flushed: Flushed) -> u8 {
    match flushed {
        Flushed::Sealed => b's',
        Flushed::Wrote => b'w',
        Flushed::PageLost => b'l',
        _ => b'f',
    }
}

fn letter_of_begin(begun: &Begin) -> u8 {
    match begun {
        Begin::Job(_) => b'j',
        Begin::Busy => b'y',
        Begin::PageLost => b'L',
        Begin::Freed => b'f',
        _ => b'n',
    }
}

fn letter_of_commit(committed: Committed) -> u8 {
    match committed {
        Committed::Written => b'W',
        Committed::StalePlan => b'S',
        Committed::BadPlan => b'B',
        Committed::Forgotten => b'F',
    }
}
