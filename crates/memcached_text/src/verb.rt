// The command that a line's first word names.
ghost use Rattle.std.specs.Prelude.{◌≡◌};
ghost use Rattle.memcached_text.specs.Verbs.{verb_of, mode_of, meta_of, other_of, of_server};

use crate::store_command::StoreCommand;
use crate::words::is_text;

/// Whether a number is to grow or to shrink.
#[derive(Clone, Copy, Debug)]
pub enum Direction {
    /// `incr`: it grows, and wraps at 2^64.
    Up,
    /// `decr`: it shrinks, and stops at 0.
    Down,
}

/// A meta command that names a key.
#[derive(Clone, Copy, Debug)]
pub enum MetaCommand {
    /// `mg`: get.
    Get,
    /// `ms`: set.
    Set,
    /// `md`: delete.
    Delete,
    /// `ma`: arithmetic.
    Arithmetic,
    /// `me`: what the server knows of an item.
    Debug,
}

/// The classic command that a line's first word names, or `mn`.
#[derive(Clone, Copy)]
pub(crate) enum Verb {
    Get,
    Gets,
    GetAndTouch,
    GetsAndTouch,
    Store(StoreCommand),
    Delete,
    Count(Direction),
    Touch,
    FlushAll,
    Stats,
    Version,
    Verbosity,
    Quit,
    Shutdown,
    MetaNoop,
}

/// The classic command that a word names, or `mn`.
#[tactic(auto, unfolding(crate::specs::Verbs::verb_of))]
pub(crate) fn named_verb(word: &[u8]) -> Option<Verb>
    ensures { result ≡ verb_of word.now }
{
    match named_mode(word) {
        Some(mode) => Some(Verb::Store(mode)),
        None => named_other(word),
    }
}

// The mode of a command that stores.
fn named_mode(word: &[u8]) -> Option<StoreCommand>
    ensures { result ≡ mode_of word.now }
{
    if is_text(word, b"set") {
        Some(StoreCommand::Set)
    } else if is_text(word, b"add") {
        Some(StoreCommand::Add)
    } else if is_text(word, b"replace") {
        Some(StoreCommand::Replace)
    } else if is_text(word, b"append") {
        Some(StoreCommand::Append)
    } else if is_text(word, b"prepend") {
        Some(StoreCommand::Prepend)
    } else if is_text(word, b"cas") {
        Some(StoreCommand::Cas)
    } else {
        None
    }
}

/// The meta command that a word names, if it names a key.
pub(crate) fn named_meta(word: &[u8]) -> Option<MetaCommand>
    ensures { result ≡ meta_of word.now }
{
    if is_text(word, b"mg") {
        Some(MetaCommand::Get)
    } else if is_text(word, b"ms") {
        Some(MetaCommand::Set)
    } else if is_text(word, b"md") {
        Some(MetaCommand::Delete)
    } else if is_text(word, b"ma") {
        Some(MetaCommand::Arithmetic)
    } else if is_text(word, b"me") {
        Some(MetaCommand::Debug)
    } else {
        None
    }
}

// Any other command.
fn named_other(word: &[u8]) -> Option<Verb>
    ensures { result ≡ other_of word.now }
{
    if is_text(word, b"get") {
        Some(Verb::Get)
    } else if is_text(word, b"gets") {
        Some(Verb::Gets)
    } else if is_text(word, b"gat") {
        Some(Verb::GetAndTouch)
    } else if is_text(word, b"gats") {
        Some(Verb::GetsAndTouch)
    } else if is_text(word, b"delete") {
        Some(Verb::Delete)
    } else if is_text(word, b"incr") {
        Some(Verb::Count(Direction::Up))
    } else if is_text(word, b"decr") {
        Some(Verb::Count(Direction::Down))
    } else if is_text(word, b"touch") {
        Some(Verb::Touch)
    } else {
        named_of_server(word)
    }
}

// A command that names no key.
fn named_of_server(word: &[u8]) -> Option<Verb>
    ensures { result ≡ of_server word.now }
{
    if is_text(word, b"flush_all") {
        Some(Verb::FlushAll)
    } else if is_text(word, b"stats") {
        Some(Verb::Stats)
    } else if is_text(word, b"version") {
        Some(Verb::Version)
    } else if is_text(word, b"verbosity") {
        Some(Verb::Verbosity)
    } else if is_text(word, b"quit") {
        Some(Verb::Quit)
    } else if is_text(word, b"shutdown") {
        Some(Verb::Shutdown)
    } else if is_text(word, b"mn") {
        Some(Verb::MetaNoop)
    } else {
        None
    }
}
