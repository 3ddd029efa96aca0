//! The calls of sets, by their words. A call that names no key is of the set of `ax`, which is the only one if there is one.
ghost use Rattle.record_pages.specs.Sizes.{IsPageSize};

use super::*;
use record_pages::ValueBuffer;

impl<D: PageDevice<PAGE>, const PAGE: usize> Scripted for Owner<D, PAGE> {
    ghost use Rattle.record_pages.specs.Sizes.{IsPageSize};

    ghost can_act = { IsPageSize PAGE };

    fn act(&mut self, alloc: Global, step: &mut TextStep<'_>) -> Result<(), Fail> {
        let word = step.word();
        call(alloc, self, word, step)
    }
}

/// Makes the call that a word names, and tells what it gives.
pub fn call<D: PageDevice<PAGE>, const PAGE: usize>(
    alloc: Global,
    owner: &mut Owner<D, PAGE>,
    word: &[u8],
    step: &mut TextStep<'_>,
) -> Result<(), Fail>
    requires { IsPageSize PAGE }
{
    if is(word, b"look") {
        return look(alloc, owner, step, EXPIRES - 1);
    }
    if is(word, b"look-late") {
        return look(alloc, owner, step, EXPIRES);
    }
    if is(word, b"read") || is(word, b"write") || is(word, b"forget") {
        return of_set(alloc, owner, &key(alloc, b"ax")?, word, step);
    }
    if is(word, b"read-of") || is(word, b"write-of") || is(word, b"strike") {
        return of_set(alloc, owner, &step.key(alloc)?, word, step);
    }
    simple(owner, word, step);
    Ok(())
}

// The same of the calls of the set of a key.
fn of_set<D: PageDevice<PAGE>, const PAGE: usize>(
    alloc: Global,
    owner: &mut Owner<D, PAGE>,
    key: &Key,
    word: &[u8],
    step: &mut TextStep<'_>,
) -> Result<(), Fail>
    requires { IsPageSize PAGE }
{
    if is(word, b"read") || is(word, b"read-of") {
        return tell_read(alloc, owner, key, step);
    }
    if is(word, b"write") || is(word, b"write-of") {
        return write(alloc, owner, key, step);
    }
    if is(word, b"strike") {
        owner.strike(key);
    } else {
        owner.forget(key);
    }
    Ok(())
}

// The same of the calls that take no memory.
fn simple<D: PageDevice<PAGE>, const PAGE: usize>(
    owner: &mut Owner<D, PAGE>,
    word: &[u8],
    step: &mut TextStep<'_>,
)
    requires { IsPageSize PAGE }
{
    if is(word, b"locate") {
        locate(owner, step, EXPIRES - 1);
    } else if is(word, b"locate-late") {
        locate(owner, step, EXPIRES);
    } else if is(word, b"touch") {
        touch(owner, step);
    } else {
        step.refuse();
    }
}

// Looks for a key at a moment.
fn look<D: PageDevice<PAGE>, const PAGE: usize>(
    alloc: Global,
    owner: &mut Owner<D, PAGE>,
    step: &mut TextStep<'_>,
    moment: u64,
) -> Result<(), Fail>
    requires { IsPageSize PAGE }
{
    let key = step.key(alloc)?;
    let looked = match owner.look(alloc, &key, moment) {
        Ok(looked) => looked,
        Err(_) => owner.look(alloc, &key, moment)?,
    };
    tell_looked(&looked, step);
    Ok(())
}

/// Reads the set of a key, once more if memory was refused.
pub fn read<D: PageDevice<PAGE>, const PAGE: usize>(
    alloc: Global,
    owner: &mut Owner<D, PAGE>,
    key: &Key,
) -> Result<SetRead, Fail>
    requires { IsPageSize PAGE }
{
    match owner.read(alloc, key) {
        Ok(read) => Ok(read),
        Err(_) => Ok(owner.read(alloc, key)?),
    }
}

// Reads the set of a key, and tells its records.
fn tell_read<D: PageDevice<PAGE>, const PAGE: usize>(
    alloc: Global,
    owner: &mut Owner<D, PAGE>,
    key: &Key,
    step: &mut TextStep<'_>,
) -> Result<(), Fail>
    requires { IsPageSize PAGE }
{
    match read(alloc, owner, key)? {
        SetRead::Records(records) => {
            if records.is_empty() {
                step.tell(b"none");
            }
            for number in 0..records.len() {
                tell_record(records.at(number), step);
            }
        }
        SetRead::PageLost => step.tell(b"page lost"),
    }
    Ok(())
}

// Tells a record by its key and its value, and whether it was hit; it has the prediction that a record enters the log with.
fn tell_record(record: &SetRecord, step: &mut TextStep<'_>) {
    step.tell_pair(record.stored.key.bytes(), record.stored.value.value.bytes());
    if record.hit {
        step.tell(b"hit");
    }
    if record.stored.value.expires != EXPIRES || record.stored.pred.get() != Prediction::ENTERING {
        step.refuse();
    }
}

// Writes the pairs of a step to the set of a key, and tells what became of it.
fn write<D: PageDevice<PAGE>, const PAGE: usize>(
    alloc: Global,
    owner: &mut Owner<D, PAGE>,
    key: &Key,
    step: &mut TextStep<'_>,
) -> Result<(), Fail>
    requires { IsPageSize PAGE }
{
    let mut writer = SetPageWriter::new();
    for _ in 0..MAX_SET_RECORDS {
        let Some((name, bytes)) = step.pair_if_any() else {
            break;
        };
        push(&mut writer, &record(alloc, name, &bytes)?);
    }
    step.tell(match owner.rewrite(key, &writer) {
        Rewritten::Written => b"written",
        Rewritten::Forgotten => b"forgotten",
    });
    Ok(())
}

/// A pair as it enters the log.
pub fn record(alloc: Global, name: &[u8], bytes: &[u8]) -> Result<Record, Fail> {
    let pred = Prediction::new(Prediction::ENTERING).unwrap();
    let key = key(alloc, name)?;
    let value = TimedValue {
        value: value(alloc, bytes)?,
        expires: EXPIRES,
    };
    Ok(Record { key, value, pred })
}

/// Adds a record if it fits.
pub fn push<const PAGE: usize>(writer: &mut SetPageWriter<PAGE>, record: &Record) {
    if writer.fits(record.lent()) {
        writer.push(record.lent());
    }
}

// Locates the bytes of a key at a moment, and tells the slot and the value that is in the buffer then, or why there is none.
fn locate<D: PageDevice<PAGE>, const PAGE: usize>(
    owner: &mut Owner<D, PAGE>,
    step: &mut TextStep<'_>,
    moment: u64,
)
    requires { IsPageSize PAGE }
{
    let mut found = ValueBuffer::empty();
    found.set(WAS_HELD);
    match owner.locate(step.bytes().as_slice(), moment, &mut found) {
        LocatedInSet::Hit { slot, expires } => {
            step.tell_number(slot as u64);
            step.tell(found.bytes());
            if expires != EXPIRES {
                step.refuse();
            }
        }
        other => tell_missed(other, &found, step),
    }
}

// Tells why no slot was located; the buffer stays as it was.
fn tell_missed(located: LocatedInSet, found: &ValueBuffer, step: &mut TextStep<'_>) {
    step.tell(match located {
        LocatedInSet::Hit { .. } => b"hit",
        LocatedInSet::Absent => b"absent",
        LocatedInSet::Expired => b"expired",
        LocatedInSet::Fault => b"fault",
        LocatedInSet::Damaged => b"damaged",
    });
    if found.bytes() != WAS_HELD {
        step.refuse();
    }
}

// Touches a slot of a key's set, which a page can have.
fn touch<D: PageDevice<PAGE>, const PAGE: usize>(
    owner: &mut Owner<D, PAGE>,
    step: &mut TextStep<'_>,
) {
    let key = step.bytes();
    let slot = step.small() as usize;
    if slot < MAX_SET_RECORDS {
        owner.touch(key.as_slice(), slot);
    } else {
        step.refuse();
    }
}
