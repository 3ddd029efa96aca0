// The call that a line spells.
ghost use Rattle.std.specs.Prelude.{◌≡◌, ◌≤◌, Ok, Some, None, length, map, IsTrue, IfOk, IfErr, IfSome, IfNone, OnOk, ok_or};
ghost use Rattle.record_pages.specs.Bounded.{IsKey, IsValue};
ghost use Rattle.history_text.specs.Spelling.{stamp_of, end_of, has_words, head_of, key_of, value_of, time_at, act_of, line_words, spelled_of, spelled_of_words};
ghost use Rattle.history_text.specs.Spelled.{IsSaid, act_by, spelled_by};
ghost use Rattle.history_text.specs.Text.{is_passed_over};

use crate::coding::decode;
use crate::line_cause::LineCause;
use crate::line_head::LineHead;
use crate::line_kind::{has_words, kind_of, returns};
use crate::spelling::Spelling;
use crate::text_fault::TextFault;
use arrayvec::ArrayVec;
use record_pages::{Key, NEVER, Value};
use script_words::{MAX_WORDS, time, words_in};
use trace_file::CallKind;

/// The fewest words of a line: caller, start, end, kind and key.
const FEWEST: usize = 5;

/// The most words of a line: a value and a time stand after them.
const MOST: usize = 7;

/// The first stamp that no word writes.
const STAMPS: u64 = 1 << 63;

/// Whether a line is passed over: it is empty, or begins with `#`.
pub(crate) fn is_passed_over(line: &[u8]) -> bool
    ensures { result ≡ is_passed_over line.now }
{
    match line {
        [] => true,
        [first, ..] => *first == b'#',
    }
}

/// The words of a line that has as many as a call can have.
fn line_words<'a>(line: &'a [u8]) -> Option<ArrayVec<&'a [u8], MAX_WORDS>>
    ensures words { IfSome result (λ words. line_words line.now ≡ Some (map (λ w. w.now) words.items)) }
    ensures few { IfSome result (λ words. 5 ≤ length words.items) }
    ensures none { IfNone result (line_words line.now ≡ None) }
{
    match words_in(line) {
        Some(words) => {
            if FEWEST <= words.len() && words.len() <= MOST {
                Some(words)
            } else {
                None
            }
        }
        None => None,
    }
}

/// The stamp that a word writes.
fn stamp(word: &[u8]) -> Option<u64>
    ensures { result ≡ stamp_of word.now }
{
    match time(word) {
        Some(number) => { if number < STAMPS { Some(number) } else { None } }
        None => None,
    }
}

/// The stamp that a word writes, or why it writes none.
fn stamp_or(word: &[u8], cause: LineCause) -> Result<u64, LineCause>
    ensures { result ≡ ok_or (stamp_of word.now) cause }
{
    match stamp(word) {
        Some(stamp) => Ok(stamp),
        None => Err(cause),
    }
}

/// The end that a word writes: of what never returned there is none before the last stamp.
#[tactic(auto, unfolding(crate::specs::Spelling::end_of))]
fn end(word: &[u8]) -> Result<u64, LineCause>
    ensures { result ≡ end_of word.now }
{
    if word == b"-".as_slice() {
        return Ok(NEVER);
    }
    stamp_or(word, LineCause::BadEnd)
}

/// The first words of a line after its caller, or the first of them that is bad.
#[tactic(auto, unfolding(crate::specs::Spelling::head_of))]
fn head_of(words: &[&[u8]]) -> Result<LineHead, LineCause>
    requires { 5 ≤ length words.now }
    ensures value { result ≡ head_of (map (λ w. w.now) words.now) }
    ensures counted { IfOk result (λ head. IsTrue (has_words head.kind (length words.now))) }
{
    let start = stamp_or(words[1], LineCause::BadStart)?;
    let end = end(words[2])?;
    let kind = kind_of(words[3])?;
    if !has_words(kind, words.len()) {
        return Err(LineCause::WrongCount);
    }
    if returns(kind) && end == NEVER {
        return Err(LineCause::NoReturn);
    }
    Ok(LineHead { start, end, kind })
}

/// Puts the bytes of a key's word in place of those of `bytes`.
#[tactic(auto, unfolding(crate::specs::Spelling::key_of))]
pub(crate) fn take_key(word: &[u8], bytes: &mut Vec<u8>) -> Result<(), TextFault>
    ensures ok { OnOk result (key_of word.now ≡ Ok bytes.new.items) }
    ensures key { OnOk result (IsKey bytes.new.items) }
    ensures bad { IfErr result (IsSaid (key_of word.now)) }
{
    if !decode(word, bytes)? {
        return Err(TextFault::Bad(LineCause::BadKeyCode));
    }
    if bytes.is_empty() || bytes.len() > Key::MAX_LEN {
        return Err(TextFault::Bad(LineCause::BadKeyLen));
    }
    Ok(())
}

/// Puts the bytes of a value's word in place of those of `bytes`.
#[tactic(auto, unfolding(crate::specs::Spelling::value_of))]
fn take_value(word: &[u8], bytes: &mut Vec<u8>) -> Result<(), TextFault>
    ensures ok { OnOk result (value_of word.now ≡ Ok bytes.new.items) }
    ensures value { OnOk result (IsValue bytes.new.items) }
    ensures bad { IfErr result (IsSaid (value_of word.now)) }
{
    if !decode(word, bytes)? {
        return Err(TextFault::Bad(LineCause::BadValueCode));
    }
    if bytes.len() > Value::MAX_LEN {
        return Err(TextFault::Bad(LineCause::BadValueLen));
    }
    Ok(())
}

/// The time that the seventh word writes, or another one if there is no such word.
#[tactic(auto, unfolding(crate::specs::Spelling::time_at))]
fn time_at(words: &[&[u8]], other: u64, cause: LineCause) -> Result<u64, LineCause>
    ensures { result ≡ time_at (map (λ w. w.now) words.now) other cause }
{
    if words.len() <= 6 {
        return Ok(other);
    }
    stamp_or(words[6], cause)
}

/// Puts the bytes of the value that a line of this kind names in place of those of `bytes`, and answers the time that it
/// names. The value of a kind that has none is empty, and its time 0.
#[tactic(auto, unfolding(crate::specs::Spelling::act_of), using(crate::proofs::Saying::said_on))]
fn take_act(kind: CallKind, words: &[&[u8]], bytes: &mut Vec<u8>) -> Result<u64, TextFault>
    requires { IsTrue (has_words kind (length words.now)) }
    ensures ok { IfOk result (λ time. act_of kind (map (λ w. w.now) words.now) ≡ Ok (act_by kind bytes.new.items time)) }
    ensures value { OnOk result (IsValue bytes.new.items) }
    ensures bad { IfErr result (IsSaid (act_of kind (map (λ w. w.now) words.now))) }
{
    match kind {
        CallKind::Put => {
            take_value(words[5], bytes)?;
            Ok(time_at(words, NEVER, LineCause::BadExpiry)?)
        }
        CallKind::Hit => {
            take_value(words[5], bytes)?;
            Ok(time_at(words, 0, LineCause::BadMoment)?)
        }
        CallKind::Miss | CallKind::Remove => {
            bytes.clear();
            Ok(0)
        }
    }
}

/// Takes a line apart. The bytes of its key and its value are put in place of those of `key` and `value`.
#[tactic(auto, unfolding(crate::specs::Spelling::spelled_of, crate::specs::Spelling::spelled_of_words), using(crate::proofs::Saying::said_on))]
pub(crate) fn take_line<'a>(
    line: &'a [u8],
    key: &mut Vec<u8>,
    value: &mut Vec<u8>,
) -> Result<Spelling<'a>, TextFault>
    ensures ok { IfOk result (λ s. spelled_of line.now ≡ Ok (spelled_by s key.new.items value.new.items)) }
    ensures key { OnOk result (IsKey key.new.items) }
    ensures value { OnOk result (IsValue value.new.items) }
    ensures bad { IfErr result (IsSaid (spelled_of line.now)) }
{
    let Some(words) = line_words(line) else {
        return Err(TextFault::Bad(LineCause::NotWords));
    };
    let head = head_of(&words)?;
    take_key(words[4], key)?;
    let time = take_act(head.kind, &words, value)?;
    Ok(Spelling {
        caller: words[0],
        head,
        time,
    })
}
