// The commands of a script.
ghost use Rattle.std.specs.Prelude.{◌≡◌, ◌<◌, ◌≤◌, length, slice_index_or, [], List, map, IfOk, option_map};
ghost use Rattle.script_words.specs.Commands.{is_named, key_of, value_of, get_words, put_words, bare_of, command_of_words, command_of};

use crate::words::{number, time, words_in};
use record_pages::{Key, KeyFault, NEVER, Value, ValueFault};
use std::alloc::{AllocError, Global};

/// A line of a script after its first.
#[derive(Drop)]
pub enum Command {
    /// Puts a value, with the word that decides whether it enters flash, and the moment from which it is
    /// expired, 2^64 - 1 for never.
    Put(Key, Value, u32, u64),
    /// Asks for a key at a moment.
    Get(Key, u64),
    /// Removes a key.
    Remove(Key),
    /// Has the cache forget a key, which is no call of the history.
    Forget(Key),
    /// Has the log write or seal one step of what it holds back.
    Flush,
    /// Has one move made whole: from the oldest of the log into its set.
    Move,
    /// Asks for the verdict on the calls so far.
    Verdict,
    /// Asks for the trace of the calls so far.
    Trace,
}

/// Whether there are `count` words, and the first is this one.
pub(crate) fn is_named(words: &[&[u8]], count: usize, name: &[u8]) -> bool
    requires { 0 < count }
    ensures { result ≡ is_named (map (λ w. w.now) words.now) count name.now }
{
    words.len() == count && words[0] == name
}

/// The key that a word writes.
fn key(alloc: Global, word: &[u8]) -> Result<Option<Key>, AllocError>
    ensures { IfOk result (λ key. key ≡ key_of word.now) }
{
    match Key::new(alloc, word) {
        Ok(key) => Ok(Some(key)),
        Err(KeyFault::OutOfMemory) => Err(AllocError),
        Err(KeyFault::KeyEmpty | KeyFault::KeyTooLong) => Ok(None),
    }
}

/// The value that a word writes.
fn value(alloc: Global, word: &[u8]) -> Result<Option<Value>, AllocError>
    ensures { IfOk result (λ value. value ≡ value_of word.now) }
{
    let bytes: &[u8] = if word == b"-".as_slice() { &[] } else { word };
    match Value::new(alloc, bytes) {
        Ok(value) => Ok(Some(value)),
        Err(ValueFault::OutOfMemory) => Err(AllocError),
        Err(ValueFault::ValueTooLong) => Ok(None),
    }
}

/// The get of a key at a moment, if there is one.
#[tactic(auto, unfolding(crate::specs::Commands::get_words))]
fn get_command(
    alloc: Global,
    key_word: &[u8],
    moment: Option<u64>,
) -> Result<Option<Command>, AllocError>
    ensures { IfOk result (λ command. command ≡ get_words key_word.now moment) }
{
    let Some(key) = key(alloc, key_word)? else {
        return Ok(None);
    };
    match moment {
        Some(moment) => Ok(Some(Command::Get(key, moment))),
        None => Ok(None),
    }
}

/// The put that three words spell, with the moment from which it is expired, if there is one.
#[tactic(auto, unfolding(crate::specs::Commands::put_words))]
fn put_command(
    alloc: Global,
    key_word: &[u8],
    value_word: &[u8],
    number_word: &[u8],
    expires: Option<u64>,
) -> Result<Option<Command>, AllocError>
    ensures { IfOk result (λ command. command ≡ put_words key_word.now value_word.now number_word.now expires) }
{
    let Some(key) = key(alloc, key_word)? else {
        return Ok(None);
    };
    let Some(value) = value(alloc, value_word)? else {
        return Ok(None);
    };
    match (number(number_word), expires) {
        (Some(word), Some(expires)) => Ok(Some(Command::Put(key, value, word, expires))),
        _ => Ok(None),
    }
}

/// The removal of a key, if the word writes one.
fn remove_command(alloc: Global, key_word: &[u8]) -> Result<Option<Command>, AllocError>
    ensures { IfOk result (λ command. command ≡ option_map Command.Remove (key_of key_word.now)) }
{
    Ok(key(alloc, key_word)?.map(Command::Remove))
}

/// The forgetting of a key, if the word writes one.
fn forget_command(alloc: Global, key_word: &[u8]) -> Result<Option<Command>, AllocError>
    ensures { IfOk result (λ command. command ≡ option_map Command.Forget (key_of key_word.now)) }
{
    Ok(key(alloc, key_word)?.map(Command::Forget))
}

/// The command that one word spells.
#[tactic(auto, unfolding(crate::specs::Commands::bare_of))]
fn bare_command(words: &[&[u8]]) -> Option<Command>
    ensures { result ≡ bare_of (map (λ w. w.now) words.now) }
{
    if is_named(words, 1, b"verdict") {
        Some(Command::Verdict)
    } else if is_named(words, 1, b"trace") {
        Some(Command::Trace)
    } else if is_named(words, 1, b"flush") {
        Some(Command::Flush)
    } else if is_named(words, 1, b"move") {
        Some(Command::Move)
    } else {
        None
    }
}

/// The command that words spell.
fn command_of_words(alloc: Global, words: &[&[u8]]) -> Result<Option<Command>, AllocError>
    ensures { IfOk result (λ command. command ≡ command_of_words (map (λ w. w.now) words.now)) }
{
    if is_named(words, 2, b"get") {
        get_command(alloc, words[1], Some(0))
    } else if is_named(words, 3, b"get") {
        get_command(alloc, words[1], time(words[2]))
    } else if is_named(words, 2, b"remove") {
        remove_command(alloc, words[1])
    } else if is_named(words, 2, b"forget") {
        forget_command(alloc, words[1])
    } else if is_named(words, 4, b"put") {
        put_command(alloc, words[1], words[2], words[3], Some(NEVER))
    } else if is_named(words, 5, b"put") {
        put_command(alloc, words[1], words[2], words[3], time(words[4]))
    } else {
        Ok(bare_command(words))
    }
}

/// The command that a line spells. It takes memory for the command's key and value, and none for the
/// line's words.
#[tactic(auto, unfolding(crate::specs::Commands::bare_of))]
pub fn parse_command(alloc: Global, line: &[u8]) -> Result<Option<Command>, AllocError>
    ensures { IfOk result (λ command. command ≡ command_of line.now) }
{
    match words_in(line) {
        Some(words) => match command_of_words(alloc, &words) {
            Ok(command) => Ok(command),
            Err(refused) => Err(refused),
        },
        None => Ok(None),
    }
}
