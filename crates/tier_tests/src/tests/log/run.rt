//! The calls of a log on set 0, by their words.
ghost use Rattle.record_pages.specs.Sizes.{IsPageSize};

use super::*;
use record_pages::{TimedValue, ValueBuffer};
use set_hash::Placed;

impl<D: PageDevice<PAGE>, const PAGE: usize> Scripted for Owner<D, PAGE> {
    ghost use Rattle.record_pages.specs.Sizes.{IsPageSize};

    ghost can_act = { IsPageSize PAGE };

    fn act(&mut self, alloc: Global, step: &mut TextStep<'_>) -> Result<(), Fail> {
        let word = step.word();
        call(alloc, self, word, step)
    }
}

/// Makes the call that a word names, and tells what it gives.
pub fn call<D: PageDevice<PAGE>, const PAGE: usize>(
    alloc: Global,
    owner: &mut Owner<D, PAGE>,
    word: &[u8],
    step: &mut TextStep<'_>,
) -> Result<(), Fail>
    requires { IsPageSize PAGE }
{
    if is(word, b"append") {
        return append(alloc, owner, step);
    }
    if is(word, b"look") {
        return look(alloc, owner, step, EXPIRES - 1);
    }
    if is(word, b"look-late") {
        return look(alloc, owner, step, EXPIRES);
    }
    if is(word, b"strike") {
        owner.strike(&step.key(alloc)?);
    } else if is(word, b"take") {
        tell_taken(&take(alloc, owner)?, step);
    } else {
        simple(owner, word, step);
    }
    Ok(())
}

// The same of the calls that take no memory.
fn simple<D: PageDevice<PAGE>, const PAGE: usize>(
    owner: &mut Owner<D, PAGE>,
    word: &[u8],
    step: &mut TextStep<'_>,
)
    requires { IsPageSize PAGE }
{
    if is(word, b"locate") {
        locate(owner, step, EXPIRES - 1);
    } else if is(word, b"locate-late") {
        locate(owner, step, EXPIRES);
    } else if is(word, b"touch") {
        touch(owner, step);
    } else if is(word, b"flush") {
        step.tell(name_of_flush(owner.flush()));
    } else if is(word, b"oldest") {
        tell_oldest(owner.oldest(), step);
    } else if is(word, b"oldest-but") {
        oldest_but(owner, step);
    } else if is(word, b"readmit") {
        step.tell(name_of_readmitted(owner.readmit()));
    } else if is(word, b"count") {
        step.tell_number(owner.len() as u64);
    } else if is(word, b"drop-oldest") {
        step.tell(if owner.drop_oldest() {
            b"dropped"
        } else {
            b"none"
        });
    } else if is(word, b"free") {
        step.tell(if owner.free() { b"freed" } else { b"not" });
    } else {
        step.refuse();
    }
}

// Appends a pair, and tells what became of it.
fn append<D: PageDevice<PAGE>, const PAGE: usize>(
    alloc: Global,
    owner: &mut Owner<D, PAGE>,
    step: &mut TextStep<'_>,
) -> Result<(), Fail>
    requires { IsPageSize PAGE }
{
    let key = step.key(alloc)?;
    let value = step.value(alloc)?;
    let expires = EXPIRES;
    step.tell(name_of_appended(owner.append(&key, &TimedValue { value, expires })));
    Ok(())
}

// Looks for a key at a moment.
fn look<D: PageDevice<PAGE>, const PAGE: usize>(
    alloc: Global,
    owner: &mut Owner<D, PAGE>,
    step: &mut TextStep<'_>,
    moment: u64,
) -> Result<(), Fail>
    requires { IsPageSize PAGE }
{
    let key = step.key(alloc)?;
    let looked = match owner.look(alloc, &key, moment) {
        Ok(looked) => looked,
        Err(_) => owner.look(alloc, &key, moment)?,
    };
    tell_looked(&looked, step);
    Ok(())
}

/// Takes set 0, once more if memory was refused.
pub fn take<D: PageDevice<PAGE>, const PAGE: usize>(
    alloc: Global,
    owner: &mut Owner<D, PAGE>,
) -> Result<SetTaken, Fail>
    requires { IsPageSize PAGE }
{
    match owner.take(alloc, 0) {
        Ok(taken) => Ok(taken),
        Err(_) => Ok(owner.take(alloc, 0)?),
    }
}

// Locates the bytes of a key at a moment, and tells the place and the prediction of its entry and the value that is in the buffer
// then, or why there is none.
fn locate<D: PageDevice<PAGE>, const PAGE: usize>(
    owner: &mut Owner<D, PAGE>,
    step: &mut TextStep<'_>,
    moment: u64,
)
    requires { IsPageSize PAGE }
{
    let key = step.bytes();
    let mut found = ValueBuffer::empty();
    found.set(WAS_HELD);
    match owner.locate(key.as_slice(), moment, &mut found) {
        LocatedInLog::Hit { entry, expires } => {
            tell_entry(&entry, step);
            step.tell(found.bytes());
            if expires != EXPIRES || !is_of(&entry, &owner.placed(key.as_slice())) {
                step.refuse();
            }
        }
        other => tell_missed(other, &found, step),
    }
}

// Tells why no entry was located; the buffer stays as it was.
fn tell_missed(located: LocatedInLog, found: &ValueBuffer, step: &mut TextStep<'_>) {
    step.tell(name_of_missed(located));
    if found.bytes() != WAS_HELD {
        step.refuse();
    }
}

// Whether an entry has the set and the tag of a key.
fn is_of(entry: &Entry, placed: &Placed) -> bool {
    entry.set == placed.set && entry.tag == placed.tag
}

// Touches the entry of the bytes of a key, which has to have one.
fn touch<D: PageDevice<PAGE>, const PAGE: usize>(
    owner: &mut Owner<D, PAGE>,
    step: &mut TextStep<'_>,
)
    requires { IsPageSize PAGE }
{
    let mut found = ValueBuffer::empty();
    match owner.locate(step.bytes().as_slice(), EXPIRES - 1, &mut found) {
        LocatedInLog::Hit { entry, .. } => owner.touch(&entry),
        _ => step.refuse(),
    }
}

// Tells the first live record of the oldest segment by its set, its tag, its place and its prediction, or why there is none.
fn tell_oldest(oldest: Oldest, step: &mut TextStep<'_>) {
    match oldest {
        Oldest::First(entry) => {
            step.tell_number(u64::from(entry.set));
            step.tell_number(u64::from(entry.tag));
            tell_entry(&entry, step);
        }
        other => step.tell(name_of_oldest(other)),
    }
}

// Tells the set and the slot of the first live record of the oldest segment that is of none of these sets, or why there is none.
fn oldest_but<D: PageDevice<PAGE>, const PAGE: usize>(
    owner: &Owner<D, PAGE>,
    step: &mut TextStep<'_>,
) {
    match owner.oldest_but(step.numbers().as_slice()) {
        Oldest::First(entry) => {
            step.tell(b"set");
            step.tell_number(u64::from(entry.set));
            step.tell(b"slot");
            step.tell_number(u64::from(entry.place.slot));
        }
        other => step.tell(name_of_oldest(other)),
    }
}

// Tells the place and the prediction of an entry.
fn tell_entry(entry: &Entry, step: &mut TextStep<'_>) {
    tell_place(entry.place, step);
    step.tell_number(u64::from(entry.prediction.get()));
}

// Tells the segment, the page and the slot of a place.
fn tell_place(place: Place, step: &mut TextStep<'_>) {
    step.tell(b"at");
    step.tell_number(u64::from(place.segment));
    step.tell_number(u64::from(place.page));
    step.tell_number(u64::from(place.slot));
}

// Tells the records that were taken, in their order.
fn tell_taken(taken: &SetTaken, step: &mut TextStep<'_>) {
    let SetTaken::Records(records) = taken else {
        step.tell(b"page lost");
        return;
    };
    if records.is_empty() {
        step.tell(b"none");
    }
    for number in 0..records.len() {
        tell_record(records.at(number), step);
    }
}

// Tells a record that was taken by its key, its value, its place, its prediction and the number of its segment.
fn tell_record(record: &TakenRecord, step: &mut TextStep<'_>) {
    step.tell_pair(record.stored.key.bytes(), record.stored.value.value.bytes());
    tell_place(record.place, step);
    step.tell_number(u64::from(record.stored.pred.get()));
    step.tell_number(record.segment);
    if record.stored.value.expires != EXPIRES {
        step.refuse();
    }
}
