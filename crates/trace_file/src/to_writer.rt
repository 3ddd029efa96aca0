// Writing a trace to a writer of bytes.
ghost use Rattle.std.specs.Prelude.{◌≡◌, ◌≢◌, ◌↔◌, ◌+◌, ◌<◌, ◌≤◌, ◌++◌, List, ℕ, length, IfErr, OnOk, OnErr, IsErrOf};
ghost use Rattle.std.specs.List.{flat_map};
ghost use Rattle.std.specs.Io.KnownBytes.{Appends};
ghost use Rattle.record_pages.specs.Bounded.{IsValue};
ghost use Rattle.trace_file.specs.Calls.{IsCall, value_of};
ghost use Rattle.trace_file.specs.Lent.{act_shown, call_shown};
ghost use Rattle.trace_file.specs.Sending.{Sent, Begun};
ghost use Rattle.trace_file.specs.Text.{value_text, time_text, act_text, call_text, position_text, text_of, IsTraceOf};
ghost use Rattle.trace_file.specs.declared.version.Version.TheVariants.{Timed};

use crate::act_ref::ActRef;
use crate::call_ref::CallRef;
use crate::certificate::Certificate;
use crate::history::History;
use crate::items::{MOST_CALLS, TIMED_MAGIC};
use crate::text_buffer::{ROOM, TextBuffer};
use crate::unwritten::Unwritten;
use crate::write_trace_fault::WriteTraceFault;
use std::io::Write;

/// The most bytes of a call: its fixed fields, a key, a value and a time.
const MOST_CALL_BYTES: usize = 2333;

/// Writes all of the bytes. A write that fails, or takes nothing, is `Unwritten` at once and is not tried
/// again; the writer may have taken a front of the bytes then.
pub fn write_whole<W: Write>(writer: &mut W, bytes: &[u8]) -> Result<(), Unwritten>
    ensures ok { OnOk result (Appends (W.contents writer.old) (W.contents writer.new) bytes.now) }
    ensures err { OnErr result (Begun (W.contents writer.old) (W.contents writer.new) bytes.now) }
{
    let mut rest = bytes;
    while !rest.is_empty() {
        match writer.write(rest) {
            Ok(0) => return Err(Unwritten),
            Ok(count) => rest = &rest[count..],
            Err(_) => return Err(Unwritten),
        }
    }
    Ok(())
}

/// Leaves room for a call among the bytes that wait, by writing them if need be.
fn make_room<W: Write>(buffer: &mut TextBuffer, writer: &mut W) -> Result<(), Unwritten>
    ensures room { OnOk result (length buffer.new + 2333 ≤ 8192) }
    ensures ok { OnOk result (
        Sent (W.contents writer.old) (W.contents writer.new) buffer.old buffer.new) }
    ensures err { OnErr result (Begun (W.contents writer.old) (W.contents writer.new) buffer.old) }
{
    if buffer.len() + MOST_CALL_BYTES <= ROOM {
        return Ok(());
    }
    match write_whole(writer, buffer.as_slice()) {
        Ok(()) => {
            buffer.clear();
            Ok(())
        }
        Err(fault) => Err(fault),
    }
}

/// Puts a call after the bytes that wait.
#[tactic(auto, unfolding(crate::specs::Text::call_text))]
fn put_call(buffer: &mut TextBuffer, call: &CallRef<'_>)
    requires room { length buffer.old + 2333 ≤ 8192 }
    requires call { IsCall (call_shown call.now) }
    ensures { buffer.new ≡ buffer.old ++ call_text Timed (call_shown call.now) }
{
    buffer.push(&[call.act.kind().byte()]);
    buffer.push(&call.caller.to_be_bytes());
    buffer.push(&call.start.to_be_bytes());
    buffer.push(&call.end.to_be_bytes());
    buffer.push(&[call.key.len() as u8]);
    buffer.push(call.key);
    put_act(buffer, &call.act);
}

/// Puts the value and the time of an act after the bytes that wait, if it has them.
fn put_act(buffer: &mut TextBuffer, act: &ActRef<'_>)
    requires room { length buffer.old + 2058 ≤ 8192 }
    requires value { IsValue (value_of (act_shown act.now)) }
    ensures { buffer.new ≡ buffer.old ++ act_text Timed (act_shown act.now) }
{
    match act {
        ActRef::Put(value, expires) => put_timed(buffer, value, *expires),
        ActRef::Remove => {}
        ActRef::Hit(value, moment) => put_timed(buffer, value, *moment),
        ActRef::Miss => {}
    }
}

/// Puts a value and a time after the bytes that wait.
fn put_timed(buffer: &mut TextBuffer, value: &[u8], time: u64)
    requires room { length buffer.old + 2058 ≤ 8192 }
    requires value { IsValue value.now }
    ensures { buffer.new ≡ buffer.old ++ (value_text value.now ++ time_text Timed time) }
{
    put_value(buffer, value);
    buffer.push(&time.to_be_bytes());
}

/// Puts a value after the bytes that wait, after its length.
fn put_value(buffer: &mut TextBuffer, value: &[u8])
    requires room { length buffer.old + 2050 ≤ 8192 }
    requires value { IsValue value.now }
    ensures { buffer.new ≡ buffer.old ++ value_text value.now }
{
    buffer.push(&(value.len() as u16).to_be_bytes());
    buffer.push(value);
}

/// Sends the calls of a history, in their order.
fn send_calls<W: Write>(
    history: &History,
    buffer: &mut TextBuffer,
    writer: &mut W,
) -> Result<(), Unwritten>
    ensures ok { OnOk result (Sent (W.contents writer.old) (W.contents writer.new)
        (buffer.old ++ flat_map (call_text Timed) history.now) buffer.new) }
    ensures err { OnErr result (Begun (W.contents writer.old) (W.contents writer.new)
        (buffer.old ++ flat_map (call_text Timed) history.now)) }
{
    for position in 0..history.len() {
        match make_room(buffer, writer) {
            Ok(()) => {}
            Err(fault) => return Err(fault),
        }
        put_call(buffer, &history.at(position));
    }
    Ok(())
}

/// Sends the positions of a certificate, in their order.
fn send_positions<W: Write>(
    certificate: &Certificate,
    buffer: &mut TextBuffer,
    writer: &mut W,
) -> Result<(), Unwritten>
    ensures ok { OnOk result (Sent (W.contents writer.old) (W.contents writer.new)
        (buffer.old ++ flat_map position_text certificate.now) buffer.new) }
    ensures err { OnErr result (Begun (W.contents writer.old) (W.contents writer.new)
        (buffer.old ++ flat_map position_text certificate.now)) }
{
    for place in 0..certificate.len() {
        match make_room(buffer, writer) {
            Ok(()) => {}
            Err(fault) => return Err(fault),
        }
        buffer.push(&certificate.at(place).to_be_bytes());
    }
    Ok(())
}

/// Sends the whole trace.
fn send<W: Write>(
    history: &History,
    certificate: &Certificate,
    writer: &mut W,
) -> Result<(), Unwritten>
    requires { length history.now ≤ 268435456 }
    ensures ok { OnOk result (Appends (W.contents writer.old) (W.contents writer.new)
        (text_of Timed history.now certificate.now)) }
    ensures err { OnErr result (Begun (W.contents writer.old) (W.contents writer.new)
        (text_of Timed history.now certificate.now)) }
{
    let mut buffer = TextBuffer::new();
    buffer.push(&TIMED_MAGIC);
    buffer.push(&(history.len() as u32).to_be_bytes());
    match send_calls(history, &mut buffer, writer) {
        Ok(()) => {}
        Err(fault) => return Err(fault),
    }
    match send_positions(certificate, &mut buffer, writer) {
        Ok(()) => {}
        Err(fault) => return Err(fault),
    }
    match write_whole(writer, buffer.as_slice()) {
        Ok(()) => Ok(()),
        Err(fault) => Err(fault),
    }
}

/// Writes the timed trace of a history and its certificate. It takes no memory, and flushes nothing.
///
/// A write that fails, or takes nothing, is `WriteFault` at once and is not tried again.
pub fn write_trace<W: Write>(
    history: &History,
    certificate: &Certificate,
    writer: &mut W,
) -> Result<(), WriteTraceFault>
    ensures ok { OnOk result (Appends (W.contents writer.old) (W.contents writer.new)
        (text_of Timed history.now certificate.now)) }
    ensures trace { OnOk result (IsTraceOf Timed (text_of Timed history.now certificate.now)
        history.now certificate.now) }

    ensures too_many { IsErrOf result WriteTraceFault.TooMany ↔ (268435456 < length history.now) }
    ensures wrong_count { IsErrOf result WriteTraceFault.WrongCount ↔
        ((length history.now ≤ 268435456) × (length certificate.now ≢ length history.now)) }
    ensures nothing { IfErr result (λ fault.
        fault ≢ WriteTraceFault.WriteFault → writer.new ≡ writer.old) }
    ensures begun { OnErr result (Begun (W.contents writer.old) (W.contents writer.new)
        (text_of Timed history.now certificate.now)) }
{
    if history.len() > MOST_CALLS as usize {
        return Err(WriteTraceFault::TooMany);
    }
    if certificate.len() != history.len() {
        return Err(WriteTraceFault::WrongCount);
    }
    match send(history, certificate, writer) {
        Ok(()) => Ok(()),
        Err(Unwritten) => Err(WriteTraceFault::WriteFault),
    }
}
