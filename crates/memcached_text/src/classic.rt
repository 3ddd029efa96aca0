// The classic commands, by the words of their lines.
ghost use Rattle.std.specs.Prelude.{◌≡◌, ◌+◌, ◌<◌, ◌≤◌, ◌^◌, ◌&&◌, ◌||◌, not, nat_le, nat_lt, ◌==◌, map, length, slice_index_or, []};
ghost use Rattle.std.specs.Str.{bytes_eq};
ghost use Rattle.memcached_text.specs.Words.{is_key, is_noreply, word_at};
ghost use Rattle.memcached_text.specs.Numbers.{number_below, length_of, low_number, exptime_of};
ghost use Rattle.memcached_text.specs.Classic.{has_words, ends_noreply, fewest_of, cas_of, store_of, delete_noreply, delete_of, delta_of, touch_of, flush_of, verbosity_of, shutdown_of, get_of, get_and_touch_of, delay_of};
ghost use Rattle.memcached_text.specs.Asked.{shown_or_fault};

use crate::exptime::Exptime;
use crate::line_error::LineError;
use crate::numbers::{data_len, expiry, low_number, number};
use crate::store_command::StoreCommand;
use crate::text_request::{DeltaRequest, StoreRequest, TextRequest};
use crate::verb::Direction;
use crate::words::{is_key, is_noreply, is_text};

/// Whether there are that many words.
fn has_words(words: &[&[u8]], least: usize, most: usize) -> bool
    ensures { result ≡ has_words (map (λ w. w.now) words.now) least most }
{
    least <= words.len() && words.len() <= most
}

/// Whether one word more than these stands there, and it is `noreply`.
fn ends_noreply(words: &[&[u8]], least: usize) -> bool
    requires { least < 24 }
    ensures { result ≡ ends_noreply (map (λ w. w.now) words.now) least }
{
    words.len() == least + 1 && is_noreply(words[least])
}

/// How many words a line that stores has without `noreply`.
fn fewest_words(mode: StoreCommand) -> usize
    ensures value { result ≡ fewest_of mode }
    ensures range { (5 ≤ result) × (result ≤ 6) }
{
    match mode {
        StoreCommand::Cas => 6,
        StoreCommand::Set => 5,
        StoreCommand::Add => 5,
        StoreCommand::Replace => 5,
        StoreCommand::Append => 5,
        StoreCommand::Prepend => 5,
    }
}

/// The unique number that the value has to have.
#[tactic(auto, unfolding(crate::specs::Classic::cas_of))]
fn cas_unique(mode: StoreCommand, words: &[&[u8]]) -> Option<u64>
    requires { fewest_of mode ≤ length words.now }
    ensures { result ≡ cas_of mode (map (λ w. w.now) words.now) }
{
    match mode {
        StoreCommand::Cas => number(words[5]),
        StoreCommand::Set => Some(0),
        StoreCommand::Add => Some(0),
        StoreCommand::Replace => Some(0),
        StoreCommand::Append => Some(0),
        StoreCommand::Prepend => Some(0),
    }
}

/// What a line stores: `COMMAND KEY FLAGS EXPTIME LENGTH [CAS] [noreply]`.
#[tactic(auto, unfolding(crate::specs::Classic::store_of, crate::specs::Classic::storing_of))]
pub(crate) fn store_request<'a>(
    mode: StoreCommand,
    words: &[&'a [u8]],
) -> Result<TextRequest<'a>, LineError>
    ensures { shown_or_fault result ≡ store_of mode (map (λ w. w.now) words.now) }
{
    let fewest = fewest_words(mode);
    if !has_words(words, fewest, fewest + 1) {
        return Err(LineError::Unknown);
    }
    let noreply = ends_noreply(words, fewest);
    if !is_key(words[1]) {
        return Err(LineError::BadFormat);
    }
    let Some(flags) = low_number(words[2]) else {
        return Err(LineError::BadFormat);
    };
    let Some(exptime) = expiry(words[3]) else {
        return Err(LineError::BadFormat);
    };
    let Some(length) = data_len(words[4]) else {
        return Err(LineError::BadFormat);
    };
    let Some(cas) = cas_unique(mode, words) else {
        return Err(LineError::BadFormat);
    };
    Ok(TextRequest::Store(StoreRequest {
        mode,
        key: words[1],
        flags,
        exptime,
        length,
        cas,
        noreply,
    }))
}

/// Whether no answer to a `delete` is wanted, if its words after the key are `[0] [noreply]`.
#[tactic(auto, unfolding(crate::specs::Classic::delete_noreply))]
fn delete_end(words: &[&[u8]]) -> Option<bool>
    requires { (2 ≤ length words.now) × (length words.now ≤ 4) }
    ensures { result ≡ delete_noreply (map (λ w. w.now) words.now) }
{
    if words.len() == 2 {
        Some(false)
    } else if words.len() == 3 {
        if is_text(words[2], b"0") {
            Some(false)
        } else if is_noreply(words[2]) {
            Some(true)
        } else {
            None
        }
    } else if is_text(words[2], b"0") && is_noreply(words[3]) {
        Some(true)
    } else {
        None
    }
}

/// `delete KEY [0] [noreply]`.
#[tactic(auto, unfolding(crate::specs::Classic::delete_of))]
pub(crate) fn delete_request<'a>(words: &[&'a [u8]]) -> Result<TextRequest<'a>, LineError>
    ensures { shown_or_fault result ≡ delete_of (map (λ w. w.now) words.now) }
{
    if !has_words(words, 2, 4) {
        return Err(LineError::Unknown);
    }
    match delete_end(words) {
        Some(noreply) => {
            if is_key(words[1]) {
                Ok(TextRequest::Delete {
                    key: words[1],
                    noreply,
                })
            } else {
                Err(LineError::BadFormat)
            }
        }
        None => Err(LineError::BadDelete),
    }
}

/// `incr KEY AMOUNT [noreply]` and `decr KEY AMOUNT [noreply]`.
#[tactic(auto, unfolding(crate::specs::Classic::delta_of))]
pub(crate) fn delta_request<'a>(
    direction: Direction,
    words: &[&'a [u8]],
) -> Result<TextRequest<'a>, LineError>
    ensures { shown_or_fault result ≡ delta_of direction (map (λ w. w.now) words.now) }
{
    if !has_words(words, 3, 4) {
        return Err(LineError::Unknown);
    }
    if !is_key(words[1]) {
        return Err(LineError::BadFormat);
    }
    let noreply = ends_noreply(words, 3);
    match number(words[2]) {
        Some(amount) => Ok(TextRequest::Delta(DeltaRequest {
            direction,
            key: words[1],
            amount,
            noreply,
        })),
        None => Err(LineError::BadDelta),
    }
}

/// `touch KEY EXPTIME [noreply]`.
#[tactic(auto, unfolding(crate::specs::Classic::touch_of))]
pub(crate) fn touch_request<'a>(words: &[&'a [u8]]) -> Result<TextRequest<'a>, LineError>
    ensures { shown_or_fault result ≡ touch_of (map (λ w. w.now) words.now) }
{
    if !has_words(words, 3, 4) {
        return Err(LineError::Unknown);
    }
    if !is_key(words[1]) {
        return Err(LineError::BadFormat);
    }
    let noreply = ends_noreply(words, 3);
    match expiry(words[2]) {
        Some(exptime) => Ok(TextRequest::Touch {
            key: words[1],
            exptime,
            noreply,
        }),
        None => Err(LineError::BadExptime),
    }
}

/// The seconds of a delay; one that has passed is none.
fn delay(exptime: Exptime) -> u32
    ensures { result ≡ delay_of exptime }
{
    match exptime {
        Exptime::Never => 0,
        Exptime::At(seconds) => seconds,
        Exptime::Past => 0,
    }
}

/// `flush_all [DELAY] [noreply]`.
#[tactic(auto, unfolding(crate::specs::Classic::flush_of))]
pub(crate) fn flush_request<'a>(words: &[&'a [u8]]) -> Result<TextRequest<'a>, LineError>
    ensures { shown_or_fault result ≡ flush_of (map (λ w. w.now) words.now) }
{
    if !has_words(words, 1, 3) {
        return Err(LineError::Unknown);
    }
    let at_once = ends_noreply(words, 1);
    if words.len() == 1 || at_once {
        return Ok(TextRequest::FlushAll {
            delay: 0,
            noreply: at_once,
        });
    }
    let noreply = ends_noreply(words, 2);
    match expiry(words[1]) {
        Some(exptime) => Ok(TextRequest::FlushAll {
            delay: delay(exptime),
            noreply,
        }),
        None => Err(LineError::BadExptime),
    }
}

/// `verbosity LEVEL [noreply]`.
#[tactic(auto, unfolding(crate::specs::Classic::verbosity_of))]
pub(crate) fn verbosity_request<'a>(words: &[&'a [u8]]) -> Result<TextRequest<'a>, LineError>
    ensures { shown_or_fault result ≡ verbosity_of (map (λ w. w.now) words.now) }
{
    if !has_words(words, 2, 3) {
        return Err(LineError::Unknown);
    }
    let noreply = ends_noreply(words, 2);
    match low_number(words[1]) {
        Some(level) => Ok(TextRequest::Verbosity { level, noreply }),
        None => Err(LineError::BadFormat),
    }
}

/// `shutdown [graceful]`.
#[tactic(auto, unfolding(crate::specs::Classic::shutdown_of))]
pub(crate) fn shutdown_request<'a>(words: &[&'a [u8]]) -> Result<TextRequest<'a>, LineError>
    ensures { shown_or_fault result ≡ shutdown_of (map (λ w. w.now) words.now) }
{
    if words.len() == 1 {
        Ok(TextRequest::Shutdown { graceful: false })
    } else if words.len() == 2 && is_text(words[1], b"graceful") {
        Ok(TextRequest::Shutdown { graceful: true })
    } else {
        Err(LineError::BadShutdown)
    }
}

/// `get KEY..` and `gets KEY..`.
#[tactic(auto, unfolding(crate::specs::Classic::get_of))]
pub(crate) fn get_request<'a>(
    with_cas: bool,
    words: &[&'a [u8]],
) -> Result<TextRequest<'a>, LineError>
    ensures { shown_or_fault result ≡ get_of with_cas (map (λ w. w.now) words.now) }
{
    if words.len() < 2 {
        Err(LineError::Unknown)
    } else {
        Ok(TextRequest::Get { with_cas })
    }
}

/// `gat EXPTIME KEY..` and `gats EXPTIME KEY..`; without a key they find nothing.
#[tactic(auto, unfolding(crate::specs::Classic::get_and_touch_of))]
pub(crate) fn get_and_touch_request<'a>(
    with_cas: bool,
    words: &[&'a [u8]],
) -> Result<TextRequest<'a>, LineError>
    ensures { shown_or_fault result ≡ get_and_touch_of with_cas (map (λ w. w.now) words.now) }
{
    if words.len() < 2 {
        return Err(LineError::Unknown);
    }
    match expiry(words[1]) {
        Some(exptime) => Ok(TextRequest::GetAndTouch { exptime, with_cas }),
        None => Err(LineError::BadExptime),
    }
}
