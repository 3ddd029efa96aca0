//! The words of steps.
use arrayvec::ArrayVec;
use item_lane::{CacheItem, CommandReply, Head, ItemMarks};
use record_pages::PutFault;
use test_devices::{Spelled, TextStep, is};

/// The byte that a byte of a word spells: a blank if it is `~`, a line feed if it is `$`.
fn spelled(byte: u8) -> u8 {
    match byte {
        b'~' => b' ',
        b'$' => b'\n',
        _ => byte,
    }
}

/// Appends what a word spells, and says whether there was room: `~` spells a blank, and `$` the end of a line.
fn spell(word: &[u8], bytes: &mut Spelled) -> bool {
    for byte in word {
        if *byte == b'$' && bytes.try_push(b'\r').is_err() {
            return false;
        }
        if bytes.try_push(spelled(*byte)).is_err() {
            return false;
        }
    }
    true
}

/// Takes the next word, and gives what it spells.
pub fn data_of(step: &mut TextStep<'_>) -> Spelled {
    let mut data = ArrayVec::new();
    if !spell(step.bytes().as_slice(), &mut data) {
        step.refuse();
    }
    data
}

/// Takes the words that are left, and gives what they spell, with a blank between two.
pub fn rest_of(step: &mut TextStep<'_>) -> Spelled {
    let mut bytes = ArrayVec::new();
    for _ in 0..MAX_WORDS {
        let word = step.word();
        if word.is_empty() {
            return bytes;
        }
        if !bytes.is_empty() && bytes.try_push(b' ').is_err() || !spell(word, &mut bytes) {
            step.refuse();
        }
    }
    bytes
}

/// The most words that are taken.
const MAX_WORDS: usize = 4096;

/// Takes a number, or the word that stands for none.
pub fn number_or(step: &mut TextStep<'_>, name: &[u8]) -> Option<u64> {
    let number = step.number_if_any();
    if number.is_none() && !is(step.word(), name) {
        step.refuse();
    }
    number
}

/// Takes an expiry: a number of 32 bits, or `never`.
pub fn expiry_of(step: &mut TextStep<'_>) -> Option<u32> {
    let number = number_or(step, b"never")?;
    match u32::try_from(number) {
        Ok(expiry) => Some(expiry),
        Err(_) => {
            step.refuse();
            None
        }
    }
}

/// Takes the head of an item that is neither stale nor won: its flags, its cas unique, and its expiry.
pub fn head_of(step: &mut TextStep<'_>) -> Head {
    Head {
        flags: step.small(),
        cas: step.number(),
        expires: expiry_of(step),
        is_stale: false,
        is_won: false,
    }
}

/// Tells an item: its flags, its cas unique, its expiry, its data with `~` for each blank, and its marks; or `none`.
pub fn tell_item(item: Option<CacheItem<'_>>, step: &mut TextStep<'_>) {
    let Some(item) = item else {
        step.tell(b"none");
        return;
    };
    step.tell_number(u64::from(item.head.flags));
    step.tell_number(item.head.cas);
    match item.head.expires {
        Some(expires) => step.tell_number(u64::from(expires)),
        None => step.tell(b"never"),
    }
    step.tell(without_blanks(item.bytes).as_slice());
    tell_if(item.head.is_stale, b"stale", step);
    tell_if(item.head.is_won, b"won", step);
}

// Data with `~` for each blank.
fn without_blanks(data: &[u8]) -> Spelled {
    let mut bytes = ArrayVec::new();
    for byte in data {
        let _has_room = bytes.try_push(if *byte == b' ' { b'~' } else { *byte });
    }
    bytes
}

// Tells a word if something holds.
fn tell_if(holds: bool, name: &[u8], step: &mut TextStep<'_>) {
    if holds {
        step.tell(name);
    }
}

/// Tells the reply to a command.
pub fn tell_reply(reply: Result<CommandReply, PutFault>, step: &mut TextStep<'_>) {
    match reply {
        Ok(CommandReply::Number(number)) => {
            step.tell(b"number");
            step.tell_number(number);
        }
        Ok(CommandReply::Found(marks)) => tell_marks(marks, step),
        Ok(other) => step.tell(name_of_reply(other)),
        Err(PutFault::TooLarge) => step.tell(b"too large"),
        Err(PutFault::OutOfMemory) => step.tell(b"out of memory"),
    }
}

// Tells what is said of an item that there is.
fn tell_marks(marks: ItemMarks, step: &mut TextStep<'_>) {
    step.tell(b"found");
    tell_if(marks.is_stale, b"X", step);
    tell_if(marks.has_won, b"W", step);
    tell_if(marks.is_awaited, b"Z", step);
}

fn name_of_reply(reply: CommandReply) -> &'static [u8] {
    match reply {
        CommandReply::Stored => b"stored",
        CommandReply::NotStored => b"not stored",
        CommandReply::Exists => b"exists",
        CommandReply::NotFound => b"not found",
        CommandReply::Deleted => b"deleted",
        CommandReply::Touched => b"touched",
        CommandReply::Invalidated => b"invalidated",
        CommandReply::Found(_) => b"found",
        CommandReply::Number(_) => b"number",
        CommandReply::NotNumber => b"not a number",
    }
}
