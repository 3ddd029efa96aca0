// A line and what it asks for.
ghost use Rattle.std.specs.Prelude.{◌≡◌, ◌-◌, ◌&&◌, not, map, length, slice_index_or, [], true, false};
ghost use Rattle.memcached_text.specs.Words.{word_at, is_noreply};
ghost use Rattle.memcached_text.specs.Requests.{classic_of, request_by, request_of, may_be_quiet, is_unknown, is_last_noreply, or_refusal, is_command, is_version, is_http};
ghost use Rattle.memcached_text.specs.Asked.{shown_or_fault, shown_or_refused};
ghost use Rattle.memcached_text.specs.Refusals.{block_after};
ghost use Rattle.memcached_text.specs.Verbs.{meta_of, verb_of};

use crate::classic::{
    delete_request, delta_request, flush_request, get_and_touch_request, get_request,
    shutdown_request, store_request, touch_request, verbosity_request,
};
use crate::line_error::LineError;
use crate::line_refusal::{LineRefusal, RefusedBlock};
use crate::meta::meta_request;
use crate::numbers::data_len;
use crate::text_request::TextRequest;
use crate::verb::{Verb, named_meta, named_verb};
use crate::words::{is_noreply, is_text, words_in};

/// Whether a command's line may end in `noreply`.
fn may_be_quiet(verb: Verb) -> bool
    ensures { result ≡ may_be_quiet verb }
{
    match verb {
        Verb::Store(_) => true,
        Verb::Delete => true,
        Verb::Count(_) => true,
        Verb::Touch => true,
        Verb::FlushAll => true,
        Verb::Verbosity => true,
        _ => false,
    }
}

/// Whether a fault is `Unknown`.
fn is_unknown(fault: LineError) -> bool
    ensures { result ≡ is_unknown fault }
{
    match fault {
        LineError::Unknown => true,
        _ => false,
    }
}

/// Whether the last word is `noreply`.
fn is_last_noreply(words: &[&[u8]]) -> bool
    ensures { result ≡ is_last_noreply (map (λ w. w.now) words.now) }
{
    !words.is_empty() && is_noreply(words[words.len() - 1])
}

/// The word at a place, empty if there is none.
fn word_at<'a>(words: &[&'a [u8]], at: usize) -> &'a [u8]
    ensures { result.now ≡ word_at (map (λ w. w.now) words.now) at }
{
    if at < words.len() { words[at] } else { &[] }
}

/// What the words of a classic command ask for.
#[tactic(auto, unfolding(crate::specs::Requests::classic_of))]
fn classic_request<'a>(verb: Verb, words: &[&'a [u8]]) -> Result<TextRequest<'a>, LineError>
    ensures { shown_or_fault result ≡ classic_of verb (map (λ w. w.now) words.now) }
{
    match verb {
        Verb::Get => get_request(false, words),
        Verb::Gets => get_request(true, words),
        Verb::GetAndTouch => get_and_touch_request(false, words),
        Verb::GetsAndTouch => get_and_touch_request(true, words),
        Verb::Store(mode) => store_request(mode, words),
        Verb::Delete => delete_request(words),
        Verb::Count(direction) => delta_request(direction, words),
        Verb::Touch => touch_request(words),
        Verb::FlushAll => flush_request(words),
        Verb::Stats => Ok(TextRequest::Stats {
            argument: word_at(words, 1),
            further: word_at(words, 2),
        }),
        Verb::Version => Ok(TextRequest::Version),
        Verb::Verbosity => verbosity_request(words),
        Verb::Quit => Ok(TextRequest::Quit),
        Verb::Shutdown => shutdown_request(words),
        Verb::MetaNoop => Ok(TextRequest::MetaNoop),
    }
}

/// The data block that follows a classic command's line: the fifth word of one that stores is its length.
fn block_after(verb: Verb, words: &[&[u8]]) -> RefusedBlock
    ensures { result ≡ block_after verb (map (λ w. w.now) words.now) }
{
    match verb {
        Verb::Store(_) => RefusedBlock::by(data_len(word_at(words, 4))),
        _ => RefusedBlock::Absent,
    }
}

/// What a classic command's line asks for. Its refusal is not answered if the line says `noreply`.
fn classic_line<'a>(verb: Verb, words: &[&'a [u8]]) -> Result<TextRequest<'a>, LineRefusal>
    ensures { shown_or_refused result ≡ or_refusal verb (map (λ w. w.now) words.now) (classic_of verb (map (λ w. w.now) words.now)) }
{
    match classic_request(verb, words) {
        Ok(request) => Ok(request),
        Err(fault) => Err(LineRefusal {
            fault,
            noreply: may_be_quiet(verb) && !is_unknown(fault) && is_last_noreply(words),
            block: block_after(verb, words),
        }),
    }
}

/// What a line asks for, given without its end, or why it is refused, with the answer that memcached gives.
///
/// Words stand between spaces, and the first 24 are looked at. A number has 64 bits, and may begin with a plus sign. The keys of
/// `get`, `gets`, `gat` and `gats` are no part of the request. It takes no memory.
#[tactic(auto, unfolding(crate::specs::Requests::request_of))]
pub fn parse<'a>(line: &'a [u8]) -> Result<TextRequest<'a>, LineRefusal>
    ensures { shown_or_refused result ≡ request_of line.now }
{
    let words = words_in(line);
    request_of_words(&words, line)
}

/// The same, with the line's words.
fn request_of_words<'a>(words: &[&'a [u8]], line: &'a [u8]) -> Result<TextRequest<'a>, LineRefusal>
    ensures { shown_or_refused result ≡ request_by (meta_of (word_at (map (λ w. w.now) words.now) 0)) (verb_of (word_at (map (λ w. w.now) words.now) 0)) (map (λ w. w.now) words.now) line.now }
{
    let name = word_at(words, 0);
    match named_meta(name) {
        Some(command) => meta_request(command, words, line),
        None => match named_verb(name) {
            Some(verb) => classic_line(verb, words),
            None => Err(LineRefusal::loud(LineError::Unknown)),
        },
    }
}

/// Whether a line is HTTP's: its first word names no command, and its last one begins as a version of HTTP.
#[tactic(auto, unfolding(crate::specs::Requests::is_http))]
pub(crate) fn is_http(line: &[u8]) -> bool
    ensures { result ≡ is_http line.now }
{
    let words = words_in(line);
    !is_command(word_at(&words, 0)) && is_version(last_word(&words))
}

/// Whether a word names a command.
fn is_command(word: &[u8]) -> bool
    ensures { result ≡ is_command word.now }
{
    named_meta(word).is_some() || named_verb(word).is_some()
}

/// Whether a word begins as a version of HTTP.
fn is_version(word: &[u8]) -> bool
    ensures { result ≡ is_version word.now }
{
    word.len() >= 5 && is_text(&word[..5], b"HTTP/")
}

/// The last word, empty if there is none.
fn last_word<'a>(words: &[&'a [u8]]) -> &'a [u8]
    ensures { result.now ≡ word_at (map (λ w. w.now) words.now) (length (map (λ w. w.now) words.now) - 1) }
{
    if words.is_empty() {
        &[]
    } else {
        words[words.len() - 1]
    }
}
