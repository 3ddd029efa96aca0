//! An index with a few entries, by each of its calls.
//!
//! An entry is told as `set SET TAG at SEGMENT PAGE SLOT PREDICTION`, or `none` if there is none.
ghost use Rattle.std.specs.Prelude.{◌≡◌, ◌<◌, ◌≤◌, ⊤};
ghost use Rattle.klog_index.specs.Entries.{Entries};

mod whole;

use klog_index::{Entry, LogIndex, Place};
use record_pages::Prediction;
use std::alloc::Global;
use std::marker::Model;
use std::test::Fail;
use test_devices::{Scripted, TextStep, is, run_text};

/// An index of as many sets as there may be.
#[derive(Drop)]
struct Owner {
    index: LogIndex,
}

impl Model for Owner {
    ghost Value = { Entries };

    ghost view = { λ o. o.index };

    ghost invariant = { λ o. o.index.sets ≡ 65536 };
}

impl Scripted for Owner {
    ghost use Rattle.std.specs.Prelude.{⊤};

    ghost can_act = { ⊤ };

    fn act(&mut self, _alloc: Global, step: &mut TextStep<'_>) -> Result<(), Fail> {
        let word = step.word();
        if is(word, b"add") {
            add(&mut self.index, step);
        } else if !changes(&mut self.index, word, step) {
            look(&self.index, word, step);
        }
        Ok(())
    }
}

// Adds an entry at a place, which is made free before, and says whether there was room.
fn enters(index: &mut LogIndex, set: u32, tag: u16, place: Place, prediction: Prediction) -> bool
    requires set { set < index.old.sets }
    requires segment { place.segment < 258 }
    requires page { place.page < 64 }
    requires slot { place.slot < 64 }
    ensures { index.new.sets ≡ index.old.sets }
{
    index.drop_at(place);
    index.add(set, tag, place, prediction).is_ok()
}

// Adds the entry that a step tells, as the numbers of an entry stand, and tells whether there was room.
fn add(index: &mut LogIndex, step: &mut TextStep<'_>)
    requires { index.old.sets ≡ 65536 }
    ensures { index.new.sets ≡ 65536 }
{
    let set = step.small() % 65536;
    let tag = half(step);
    let place = place_of(step);
    let place = Place {
        segment: place.segment % 258,
        page: place.page % 64,
        slot: place.slot % 64,
    };
    let prediction = Prediction::new(byte(step)).unwrap_or(Prediction::new(0).unwrap());
    let entered = enters(index, set, tag, place, prediction);
    step.tell(if entered { b"added" } else { b"full" });
}

fn half(step: &mut TextStep<'_>) -> u16 {
    (step.small() % 65536) as u16
}

fn byte(step: &mut TextStep<'_>) -> u8 {
    (step.small() % 256) as u8
}

fn place_of(step: &mut TextStep<'_>) -> Place {
    Place {
        segment: half(step),
        page: byte(step),
        slot: byte(step),
    }
}

// Makes a call that drops or lowers entries, if the word names one, and says whether it does.
fn changes(index: &mut LogIndex, word: &[u8], step: &mut TextStep<'_>) -> bool
    ensures { index.new.sets ≡ index.old.sets }
{
    if is(word, b"drop-tag") {
        let set = step.small();
        index.drop_tag(set, half(step));
    } else if is(word, b"drop-at") {
        index.drop_at(place_of(step));
    } else if is(word, b"drop-in") {
        let set = step.small();
        index.drop_in(set, place_of(step));
    } else if is(word, b"drop-page") {
        let segment = half(step);
        index.drop_page(segment, byte(step));
    } else if is(word, b"lower") {
        index.lower(place_of(step));
    } else if is(word, b"lower-in") {
        let set = step.small();
        index.lower_in(set, place_of(step));
    } else {
        return false;
    }
    true
}

// Makes a call that changes nothing, and tells what it gives.
fn look(index: &LogIndex, word: &[u8], step: &mut TextStep<'_>) {
    if is(word, b"len") {
        tell_len(index, step);
    } else if is(word, b"count") {
        let count = index.count(step.small());
        step.tell_number(count as u64);
    } else if is(word, b"walk") {
        tell_walk(index, step);
    } else {
        let entry = found(index, word, step);
        tell_entry(entry, step);
    }
}

// How many entries there are, `empty` if there is none, and whether there is room for one more.
fn tell_len(index: &LogIndex, step: &mut TextStep<'_>) {
    step.tell_number(index.len() as u64);
    if index.is_empty() {
        step.tell(b"empty");
    }
    step.tell(if index.is_full() { b"full" } else { b"room" });
}

// The entries that a walk over a set gives, and `end` if it gives no more when it is asked again.
fn tell_walk(index: &LogIndex, step: &mut TextStep<'_>) {
    let mut walk = index.entries_of(step.small());
    for _ in 0..8usize {
        let Some(entry) = walk.next() else {
            break;
        };
        tell_entry(Some(entry), step);
    }
    if walk.next().is_none() {
        step.tell(b"end");
    }
}

// The entry that a call gives.
fn found(index: &LogIndex, word: &[u8], step: &mut TextStep<'_>) -> Option<Entry> {
    if is(word, b"of-set") {
        let set = step.small();
        return index.of_set(set, step.small() as usize);
    }
    if is(word, b"find") {
        let set = step.small();
        let tag = half(step);
        return index.find(set, tag, step.small() as usize);
    }
    if is(word, b"first-of") {
        let segment = half(step);
        return index.first_of(segment, step.numbers().as_slice());
    }
    if is(word, b"oldest-but") {
        let segment = half(step);
        return index.oldest_but(segment, step.numbers().as_slice());
    }
    if !is(word, b"oldest") {
        step.refuse();
    }
    index.oldest()
}

fn tell_entry(entry: Option<Entry>, step: &mut TextStep<'_>) {
    let Some(entry) = entry else {
        step.tell(b"none");
        return;
    };
    step.tell(b"set");
    step.tell_number(u64::from(entry.set));
    step.tell_number(u64::from(entry.tag));
    step.tell(b"at");
    step.tell_number(u64::from(entry.place.segment));
    step.tell_number(u64::from(entry.place.page));
    step.tell_number(u64::from(entry.place.slot));
    step.tell_number(u64::from(entry.prediction.get()));
}

// Makes the calls of a text, of an empty index for this many entries.
fn play(alloc: Global, limit: u32, text: &[u8]) -> Result<(), Fail>
    requires { limit ≤ 1048576 }
{
    let index = LogIndex::open(alloc, 65536, limit)?;
    let mut owner = Owner { index };
    run_text(alloc, &mut owner, text)
}

// They stand newest first, and are dropped by kind.
const OF_TWO: &[u8] = b"
    add 2 9 257 1 1 6 added; add 2 8 7 1 0 6 added
    len 2 room; count 2 2
    of-set 2 0 set 2 8 at 7 1 0 6; of-set 2 1 set 2 9 at 257 1 1 6; of-set 2 2 none
    oldest set 2 9 at 257 1 1 6; find 2 9 0 set 2 9 at 257 1 1 6; find 2 9 1 none
    first-of 257 set 2 9 at 257 1 1 6; first-of 8 none
    drop-tag 2 7; drop-in 3 7 1 0; drop-page 7 0; drop-at 257 1 2
    len 2 room; count 2 2
    of-set 2 0 set 2 8 at 7 1 0 6; of-set 2 1 set 2 9 at 257 1 1 6; of-set 2 2 none
    oldest set 2 9 at 257 1 1 6; find 2 9 0 set 2 9 at 257 1 1 6; find 2 9 1 none
    first-of 257 set 2 9 at 257 1 1 6; first-of 8 none
    drop-in 2 7 1 0
    len 1 room; oldest set 2 9 at 257 1 1 6
    drop-tag 2 9
    len 0 empty room
";

const WITHOUT_A_PAGE: &[u8] = b"
    add 2 9 257 1 1 6 added; add 2 8 7 1 0 6 added
    drop-page 257 1
    len 1 room; oldest set 2 8 at 7 1 0 6
";

// Room for three entries, of which two are of set 2 and one, the second, is of set 3.
const OF_TWO_SETS: &[u8] = b"
    add 2 9 1 1 0 6 added; add 3 9 1 1 1 6 added; add 2 9 1 1 2 6 added
    len 3 full; oldest set 2 9 at 1 1 0 6
    walk 2 set 2 9 at 1 1 2 6 set 2 9 at 1 1 0 6 end; walk 1 end
";

// Oldest first: an entry of set 2, one of set 3 and one of set 2 of segment 5, then one of set 1 of segment 6.
// With no set as `oldest` if that is of the segment; sets that have no entry of the segment change nothing; one whose
// entry is the oldest gives the next one; all of them give none, though the next segment has an entry of another set.
const OF_TWO_SEGMENTS: &[u8] = b"
    oldest-but 5 none; oldest-but 5 2 none
    add 2 7 5 1 4 6 added; add 3 8 5 1 9 6 added; add 2 9 5 1 0 6 added; add 1 7 6 1 2 6 added
    oldest set 2 7 at 5 1 4 6
    oldest-but 5 set 2 7 at 5 1 4 6; oldest-but 5 0 1 set 2 7 at 5 1 4 6; oldest-but 5 3 set 2 7 at 5 1 4 6
    oldest-but 5 2 set 3 8 at 5 1 9 6; oldest-but 5 2 3 none; oldest-but 5 3 0 2 none
    oldest-but 6 none; oldest-but 6 2 3 none
    first-of 5 set 2 9 at 5 1 0 6; first-of 5 2 1 set 3 8 at 5 1 9 6; first-of 5 3 2 none
    first-of 6 3 2 set 1 7 at 6 1 2 6; first-of 6 1 none
    drop-page 5 1
    oldest-but 5 none; oldest-but 6 set 1 7 at 6 1 2 6; oldest-but 6 3 2 set 1 7 at 6 1 2 6; oldest-but 6 1 none
";

// The widest numbers that an entry may have.
const OF_ONE: &[u8] = b"
    add 65535 65535 257 63 63 7 added; add 0 0 0 1 0 7 full
    len 1 full; find 65535 65535 0 set 65535 65535 at 257 63 63 7; find 65535 65535 1 none
    oldest set 65535 65535 at 257 63 63 7
    lower 257 63 63; lower-in 65535 257 63 63
    len 1 full; find 65535 65535 0 set 65535 65535 at 257 63 63 5
";

const LOWERED_TO_0: &[u8] = b"
    add 65535 65535 257 63 63 1 added
    lower 257 63 63; lower-in 65535 257 63 63
    len 1 full; find 65535 65535 0 set 65535 65535 at 257 63 63 0
    drop-at 257 63 63
    len 0 empty room; find 65535 65535 0 none; oldest none
";

/// The room of an index, and its steps.
#[derive(Clone, Copy)]
struct Case(u8, &'static [u8]);

static CASES: [Case; 6] = [
    // entries stand newest first and are dropped by kind
    Case(3, OF_TWO),
    // a page is dropped
    Case(3, WITHOUT_A_PAGE),
    // a walk gives the entries of one set
    Case(3, OF_TWO_SETS),
    // some sets are passed over
    Case(8, OF_TWO_SEGMENTS),
    // the entry past the limit is refused
    Case(1, OF_ONE),
    // the widest entry is lowered to 0 and dropped
    Case(1, LOWERED_TO_0),
];

#[test]
fn each_step_gives_what_is_written(rt: HostRuntime) -> Result<(), Fail> {
    for case in &CASES {
        play(rt.alloc(), u32::from(case.0), case.1)?;
    }
    Ok(())
}
