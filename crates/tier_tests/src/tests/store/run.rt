//! The calls of a store, by their words.
use super::names::*;
use super::*;
use memory_cache::Pair;
use mover::{AnswerKind, Begin};
use policy_laws::{Choice, Item, Job, Plan};
use record_pages::{Answer, Prediction, TimedValue, ValueBuffer};

/// Makes the call of a store that a step spells, and tells what it gives.
pub fn call<D: PageDevice<PAGE>, const PAGE: usize>(
    alloc: Global,
    store: &mut Store<D, PAGE>,
    word: &[u8],
    step: &mut TextStep<'_>,
) -> Result<(), Fail> {
    if is(word, b"put") {
        return put(alloc, store, step);
    }
    if is(word, b"put-back") {
        return put_back(alloc, store, step);
    }
    if is(word, b"get") {
        return get(alloc, store, step, EXPIRES - 1);
    }
    if is(word, b"get-late") {
        return get(alloc, store, step, EXPIRES);
    }
    if is(word, b"commit") {
        return commit(alloc, store, step);
    }
    if is(word, b"remove") || is(word, b"forget") {
        return remove(alloc, store, word, step);
    }
    if is(word, b"move") {
        return move_whole(store, step);
    }
    if is(word, b"begin") || is(word, b"begin-many") {
        return begin(store, word, step);
    }
    simple(store, word, step);
    Ok(())
}

// The same of the calls that take no memory.
fn simple<D: PageDevice<PAGE>, const PAGE: usize>(
    store: &mut Store<D, PAGE>,
    word: &[u8],
    step: &mut TextStep<'_>,
) {
    if is(word, b"get-into") {
        get_into(store, step, EXPIRES - 1);
    } else if is(word, b"get-into-late") {
        get_into(store, step, EXPIRES);
    } else if is(word, b"remove-bytes") {
        store.remove_bytes(step.bytes().as_slice());
    } else if is(word, b"flush") {
        step.tell(name_of_flush(store.flush_step()));
    } else if is(word, b"abort") {
        let number = step.number();
        step.tell(name_of_abort(store.move_abort(number)));
    } else {
        step.refuse();
    }
}

// Puts a pair, with the word that decides of the pair that leaves memory, and tells what became of that.
fn put<D: PageDevice<PAGE>, const PAGE: usize>(
    alloc: Global,
    store: &mut Store<D, PAGE>,
    step: &mut TextStep<'_>,
) -> Result<(), Fail> {
    let name = step.bytes();
    let bytes = step.bytes();
    let word = step.small();
    let put = match store.put(key(alloc, &name)?, value(alloc, &bytes)?, word, EXPIRES) {
        Err(PutFault::OutOfMemory) => {
            store.put(key(alloc, &name)?, value(alloc, &bytes)?, word, EXPIRES)
        }
        other => other,
    };
    step.tell(name_of_put(put));
    Ok(())
}

// Puts a copy back, and tells its fate. The log has one live record more exactly if the copy entered it.
fn put_back<D: PageDevice<PAGE>, const PAGE: usize>(
    alloc: Global,
    store: &mut Store<D, PAGE>,
    step: &mut TextStep<'_>,
) -> Result<(), Fail> {
    let pair = Pair {
        key: step.key(alloc)?,
        value: TimedValue {
            value: step.value(alloc)?,
            expires: EXPIRES,
        },
    };
    let before = store.log_usage().live;
    let fate = store.put_back(&pair);
    step.tell(name_of_fate(fate));
    let joined = store.log_usage().live.wrapping_sub(before);
    if joined != u32::from(fate == CopyFate::Logged) {
        step.refuse();
    }
    Ok(())
}

// Gets a key, and tells where its value was and the value, or why there is none.
fn get<D: PageDevice<PAGE>, const PAGE: usize>(
    alloc: Global,
    store: &mut Store<D, PAGE>,
    step: &mut TextStep<'_>,
    moment: u64,
) -> Result<(), Fail> {
    let key = step.key(alloc)?;
    let answer = match store.get(&key, moment) {
        Ok(answer) => answer,
        Err(_) => store.get(&key, moment)?,
    };
    match answer {
        Answer::Hit(value, tier) => tell_hit(tier, value.bytes(), step),
        Answer::Miss(cause) => step.tell(name_of_miss(cause)),
    }
    Ok(())
}

fn tell_hit(tier: Tier, bytes: &[u8], step: &mut TextStep<'_>) {
    step.tell(name_of_tier(tier));
    step.tell(bytes);
}

// Gets the bytes of a key into a buffer, and tells the same: a hit has the expiry that each value was put with, and a miss leaves
// the buffer as it was.
fn get_into<D: PageDevice<PAGE>, const PAGE: usize>(
    store: &mut Store<D, PAGE>,
    step: &mut TextStep<'_>,
    moment: u64,
) {
    let mut found = ValueBuffer::empty();
    found.set(WAS_HELD);
    match store.get_into(step.bytes().as_slice(), moment, &mut found) {
        AnswerKind::Hit { tier, expires } => {
            tell_hit(tier, found.bytes(), step);
            if expires != EXPIRES {
                step.tell_number(expires);
            }
        }
        AnswerKind::Miss(cause) => {
            step.tell(name_of_miss(cause));
            if found.bytes() != WAS_HELD {
                step.tell(found.bytes());
            }
        }
    }
}

// Removes a key, or forgets it.
fn remove<D: PageDevice<PAGE>, const PAGE: usize>(
    alloc: Global,
    store: &mut Store<D, PAGE>,
    word: &[u8],
    step: &mut TextStep<'_>,
) -> Result<(), Fail> {
    let key = step.key(alloc)?;
    if is(word, b"remove") {
        store.remove(&key);
    } else {
        store.forget(&key);
    }
    Ok(())
}

// Makes a whole move, and tells what it did.
fn move_whole<D: PageDevice<PAGE>, const PAGE: usize>(
    store: &mut Store<D, PAGE>,
    step: &mut TextStep<'_>,
) -> Result<(), Fail> {
    let moved = match store.move_whole(&Rriparoo) {
        Ok(moved) => moved,
        Err(_) => store.move_whole(&Rriparoo)?,
    };
    step.tell(name_of_move(moved));
    Ok(())
}

// Begins a move, and tells how it began, with the items of its job or how many there are.
fn begin<D: PageDevice<PAGE>, const PAGE: usize>(
    store: &mut Store<D, PAGE>,
    word: &[u8],
    step: &mut TextStep<'_>,
) -> Result<(), Fail> {
    let begun = match store.move_begin() {
        Ok(begun) => begun,
        Err(_) => store.move_begin()?,
    };
    if is(word, b"begin") {
        tell_begun(&begun, step);
    } else {
        tell_count(&begun, step);
    }
    Ok(())
}

// Ends the move of a number by a plan that keeps the items behind it, each with the prediction that a record enters with, and tells
// how it ended.
fn commit<D: PageDevice<PAGE>, const PAGE: usize>(
    alloc: Global,
    store: &mut Store<D, PAGE>,
    step: &mut TextStep<'_>,
) -> Result<(), Fail> {
    let number = step.number();
    let mut plan = Plan::new(alloc);
    for item in step.numbers() {
        keep(&mut plan, item as usize)?;
    }
    step.tell(name_of_commit(store.move_commit(&plan, number)));
    Ok(())
}

// One more item is kept, tried once more if memory was refused.
fn keep(plan: &mut Plan, item: usize) -> Result<(), Fail> {
    let Some(prediction) = Prediction::new(Prediction::ENTERING) else {
        return Ok(());
    };
    let choice = Choice { item, prediction };
    match plan.push(choice) {
        Ok(()) => Ok(()),
        Err(_) => Ok(plan.push(choice)?),
    }
}

// Tells how a move began: a job by its number, its set, its room and its items.
fn tell_begun(begun: &Begin, step: &mut TextStep<'_>) {
    match begun {
        Begin::Job(job) => {
            step.tell_number(job.number);
            step.tell_number(u64::from(job.set));
            step.tell_number(u64::from(job.room));
            tell_items(job, step);
        }
        other => step.tell(name_of_begin(other)),
    }
}

// Tells how a move began: a job by its number, and how many items it has.
fn tell_count(begun: &Begin, step: &mut TextStep<'_>) {
    match begun {
        Begin::Job(job) => {
            step.tell_number(job.number);
            step.tell_number(job.items.len() as u64);
        }
        other => step.tell(name_of_begin(other)),
    }
}

// Tells the items of a job, in their order.
fn tell_items(job: &Job, step: &mut TextStep<'_>) {
    for number in 0..job.items.len() {
        tell_item(*job.items.at(number), step);
    }
}

// Tells an item by its size and its prediction, and whether it was hit and is fresh.
fn tell_item(item: Item, step: &mut TextStep<'_>) {
    step.tell_number(u64::from(item.size));
    step.tell_number(u64::from(item.prediction.get()));
    if item.hit {
        step.tell(b"hit");
    }
    if item.fresh {
        step.tell(b"fresh");
    }
}
