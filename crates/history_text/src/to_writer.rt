// Writing a history as text.
ghost use Rattle.std.specs.Prelude.{◌≡◌, All, IfOk, IfErr, OnOk, string_bytes};
ghost use Rattle.std.specs.Io.KnownBytes.{Appends};
ghost use Rattle.trace_file.specs.Lent.{act_shown, call_shown};
ghost use Rattle.history_text.specs.Writing.{act_has_text, has_text, is_chosen, named, act_text, bare_text, end_text, hit_text, put_text, text_front, text_line, line_where, written, HasTextWhere, IsFirstWithout, StopsAt, WroteBefore};

use crate::coding::word;
use crate::write_text_fault::WriteTextFault;
use record_pages::NEVER;
use std::alloc::{AllocError, Global};
use std::io::Write;
use trace_file::{ActRef, CallRef, History, Unwritten, write_whole};

/// The first stamp that has no text.
const STAMPS: u64 = 1 << 63;

/// Whether what a call did has a text: a time of it that is not left out is below 2^63, and the end of a call that returned.
fn act_has_text(act: &ActRef<'_>, end: u64) -> bool
    ensures { result ≡ act_has_text (act_shown act.now) end }
{
    match act {
        ActRef::Put(_, expires) => (end < STAMPS || end == NEVER)
            && (*expires < STAMPS || *expires == NEVER),
        ActRef::Remove => end < STAMPS || end == NEVER,
        ActRef::Hit(_, moment) => end < STAMPS && *moment < STAMPS,
        ActRef::Miss => end < STAMPS,
    }
}

/// Whether a call has a text.
fn has_text(call: &CallRef<'_>) -> bool
    ensures { result ≡ has_text (call_shown call.now) }
{
    call.start < STAMPS && act_has_text(&call.act, call.end)
}

/// An end as a word: `-` of what never returned.
pub fn end_text(alloc: Global, end: u64) -> Result<String, AllocError>
    ensures { IfOk result (λ text. string_bytes text ≡ end_text end) }
{
    if end == NEVER {
        String::from_str(alloc, "-")
    } else {
        format!(in alloc; "{end}")
    }
}

/// What a line begins with: caller N as `cN`, start and end.
fn text_front(alloc: Global, caller: u16, start: u64, end: u64) -> Result<String, AllocError>
    ensures { IfOk result (λ text. string_bytes text ≡ text_front caller start end) }
{
    let end = end_text(alloc, end)?;
    format!(in alloc; "c{caller} {start} {end}")
}

/// The line of a put, by its words.
fn put_text(
    alloc: Global,
    front: &str,
    key: &str,
    value: &str,
    expires: u64,
) -> Result<String, AllocError>
    ensures { IfOk result (λ text. string_bytes text ≡ put_text front.now key.now value.now expires) }
{
    if expires == NEVER {
        format!(in alloc; "{front} put {key} {value}\n")
    } else {
        format!(in alloc; "{front} put {key} {value} {expires}\n")
    }
}

/// The line of a hit, by its words.
fn hit_text(
    alloc: Global,
    front: &str,
    key: &str,
    value: &str,
    moment: u64,
) -> Result<String, AllocError>
    ensures { IfOk result (λ text. string_bytes text ≡ hit_text front.now key.now value.now moment) }
{
    if moment == 0 {
        format!(in alloc; "{front} hit {key} {value}\n")
    } else {
        format!(in alloc; "{front} hit {key} {value} {moment}\n")
    }
}

/// The line of a call that has no value, by its words.
fn bare_text(alloc: Global, front: &str, kind: &str, key: &str) -> Result<String, AllocError>
    ensures { IfOk result (λ text. string_bytes text ≡ bare_text front.now kind.now key.now) }
{
    format!(in alloc; "{front} {kind} {key}\n")
}

/// The line of what a call did, with its line feed, after what it begins with and the word of its key.
pub fn act_text(
    alloc: Global,
    front: &str,
    key: &str,
    act: &ActRef<'_>,
) -> Result<String, AllocError>
    ensures { IfOk result (λ text. string_bytes text ≡ act_text front.now key.now (act_shown act.now)) }
{
    match act {
        ActRef::Put(value, expires) => {
            let value = word(alloc, value)?;
            put_text(alloc, front, key, value.as_str(), *expires)
        }
        ActRef::Remove => bare_text(alloc, front, "remove", key),
        ActRef::Hit(value, moment) => {
            let value = word(alloc, value)?;
            hit_text(alloc, front, key, value.as_str(), *moment)
        }
        ActRef::Miss => bare_text(alloc, front, "miss", key),
    }
}

/// The line of a call that has a text.
fn text_line(alloc: Global, call: &CallRef<'_>) -> Result<String, AllocError>
    ensures { IfOk result (λ line. string_bytes line ≡ text_line (call_shown call.now)) }
{
    let front = text_front(alloc, call.caller, call.start, call.end)?;
    let key = word(alloc, call.key)?;
    match act_text(alloc, front.as_str(), key.as_str(), &call.act) {
        Ok(line) => Ok(line),
        Err(refused) => Err(refused),
    }
}

/// Whether a key is one whose calls are written: each is, if none is named.
fn is_chosen(only: Option<&[u8]>, key: &[u8]) -> bool
    ensures { result ≡ is_chosen (named only.entry) key.now }
{
    match only {
        Some(only) => only == key,
        None => true,
    }
}

/// Writes the line of the call at a position, if its key is one of those that are written.
#[tactic(auto, unfolding(crate::specs::Writing::line_where))]
fn write_call<W: Write>(
    alloc: Global,
    call: &CallRef<'_>,
    position: usize,
    only: Option<&[u8]>,
    writer: &mut W,
) -> Result<(), WriteTextFault>
    ensures ok { OnOk result (Appends (W.contents writer.old) (W.contents writer.new)
        (line_where (named only.entry) (call_shown call.now))) }
    ensures has { OnOk result (HasTextWhere (named only.entry) (call_shown call.now)) }
    ensures err { IfErr result (StopsAt (named only.entry) (call_shown call.now) position
        (W.contents writer.old) (W.contents writer.new)) }
{
    if !is_chosen(only, call.key) {
        return Ok(());
    }
    if !has_text(call) {
        return Err(WriteTextFault::TooLate { position });
    }
    let line = text_line(alloc, call)?;
    match write_whole(writer, line.as_bytes()) {
        Ok(()) => Ok(()),
        Err(Unwritten) => Err(WriteTextFault::WriteFault),
    }
}

/// Writes the calls of a history as text, each on a line, those of one key alone if one is named. Caller N is called
/// `cN`.
///
/// A call with a stamp or a time of 2^63 or more has no text, but for an expiry of never and the end of a put or a removal that
/// never returned. It writes once a line, so give it a writer with a buffer, and it flushes nothing.
pub fn write_text<W: Write>(
    alloc: Global,
    history: &History,
    only: Option<&[u8]>,
    writer: &mut W,
) -> Result<(), WriteTextFault>
    ensures ok { OnOk result (Appends (W.contents writer.old) (W.contents writer.new)
        (written (named only.entry) history.now)) }
    ensures have { OnOk result (All (HasTextWhere (named only.entry)) history.now) }

    ensures too_late { IfErr result (IsFirstWithout (named only.entry) history.now) }
    ensures begun { IfErr result (WroteBefore (named only.entry) history.now
        (W.contents writer.old) (W.contents writer.new)) }
{
    for position in 0..history.len() {
        let call = history.at(position);
        match write_call(alloc, &call, position, only, writer) {
            Ok(()) => {}
            Err(fault) => return Err(fault),
        }
    }
    Ok(())
}
