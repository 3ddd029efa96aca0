// The objects of the calls that a reason speaks of.
ghost use Rattle.std.specs.Prelude.{◌≡◌, IfOk, OnOk, map, nat_lt, slice_get, string_bytes};
ghost use Rattle.trace_file.specs.Lent.{act_shown, call_shown};
ghost use Rattle.figures.specs.Figures.{with_rows};
ghost use Rattle.judge_run.specs.CallObjects.{act_rows, act_word, call_object, call_rows, call_rows_of, line_name, line_rows, told_positions, value_rows, with_calls};

use crate::objects::tell_objects;
use crate::told_lines::told_positions;
use certificate_finder::Witness;
use figures::{Figure, Form};
use history_text::word;
use std::alloc::{AllocError, Global};
use trace_file::{ActRef, CallRef, History};

/// The word of an act.
fn act_word(act: &ActRef<'_>) -> &'static str
    ensures { result.now ≡ act_word (act_shown act.now) }
{
    match act {
        ActRef::Put(..) => "put",
        ActRef::Remove => "remove",
        ActRef::Hit(..) => "hit",
        ActRef::Miss => "miss",
    }
}

/// Tells a value.
fn tell_value(alloc: Global, form: Form, text: &mut String, value: &[u8]) -> Result<(), AllocError>
    ensures { OnOk result (string_bytes text.new
        ≡ with_rows form (string_bytes text.old) (value_rows value.now)) }
{
    let value = word(alloc, value)?;
    form.tell(alloc, text, "value", Figure::Word(value.as_str()))
}

/// Tells the value of an act, if it has one.
fn tell_act(
    alloc: Global,
    form: Form,
    text: &mut String,
    act: &ActRef<'_>,
) -> Result<(), AllocError>
    ensures { OnOk result (string_bytes text.new
        ≡ with_rows form (string_bytes text.old) (act_rows (act_shown act.now))) }
{
    match act {
        ActRef::Put(value, _) => tell_value(alloc, form, text, value),
        ActRef::Hit(value, _) => tell_value(alloc, form, text, value),
        ActRef::Remove | ActRef::Miss => Ok(()),
    }
}

/// Tells what a call did, when, and with which value.
fn tell_call(
    alloc: Global,
    form: Form,
    text: &mut String,
    call: &CallRef<'_>,
) -> Result<(), AllocError>
    ensures { OnOk result (string_bytes text.new
        ≡ with_rows form (string_bytes text.old) (call_rows (call_shown call.now))) }
{
    let key = word(alloc, call.key)?;
    form.tell(alloc, text, "kind", Figure::Word(act_word(&call.act)))?;
    form.tell(alloc, text, "key", Figure::Word(key.as_str()))?;
    form.tell(alloc, text, "start", Figure::Count(call.start))?;
    form.tell(alloc, text, "end", Figure::Count(call.end))?;
    match tell_act(alloc, form, text, &call.act) {
        Ok(()) => Ok(()),
        Err(refused) => Err(refused),
    }
}

/// Tells the call at a position, if there is one.
fn tell_call_at(
    alloc: Global,
    form: Form,
    text: &mut String,
    history: &History,
    position: u64,
) -> Result<(), AllocError>
    ensures { OnOk result (string_bytes text.new
        ≡ with_rows form (string_bytes text.old) (call_rows_of (slice_get history.now position))) }
{
    let place = position as usize;
    if place >= history.len() {
        return Ok(());
    }
    match tell_call(alloc, form, text, &history.at(place)) {
        Ok(()) => Ok(()),
        Err(refused) => Err(refused),
    }
}

/// What the line of a call tells: where it was recorded, or where a value that was there from the start was read first.
fn line_name(is_recorded: bool) -> &'static str
    ensures { result.now ≡ line_name is_recorded }
{
    if is_recorded {
        "line"
    } else {
        "from-start-line"
    }
}

/// Tells the line of the call at a position, if there is one.
fn tell_line_at(
    alloc: Global,
    form: Form,
    text: &mut String,
    lines: &[u64],
    recorded: usize,
    position: u64,
) -> Result<(), AllocError>
    ensures { OnOk result (string_bytes text.new
        ≡ with_rows form (string_bytes text.old)
        (line_rows (nat_lt position recorded) (slice_get lines.now position))) }
{
    let name = line_name((position as usize) < recorded);
    match lines.get(position as usize) {
        Some(line) => form.tell(alloc, text, name, Figure::Count(*line)),
        None => Ok(()),
    }
}

/// The object of the call at a position, if so many calls were recorded.
fn call_object(
    alloc: Global,
    history: &History,
    lines: &[u64],
    recorded: usize,
    position: u64,
) -> Result<String, AllocError>
    ensures { IfOk result (λ text. string_bytes text
        ≡ call_object history.now lines.now recorded position) }
{
    let mut text = String::new(alloc);
    tell_line_at(alloc, Form::Json, &mut text, lines, recorded, position)?;
    tell_call_at(alloc, Form::Json, &mut text, history, position)?;
    text.push_str("}")?;
    Ok(text)
}

/// The objects of the calls at these positions.
fn call_objects(
    alloc: Global,
    history: &History,
    lines: &[u64],
    recorded: usize,
    positions: &[u64],
) -> Result<Vec<String>, AllocError>
    ensures { IfOk result (λ objects. map string_bytes objects.items
        ≡ map (call_object history.now lines.now recorded) positions.now) }
{
    let mut objects = Vec::new(alloc);
    for position in positions {
        let object = call_object(alloc, history, lines, recorded, *position)?;
        let Ok(()) = objects.push(object) else {
            return Err(AllocError);
        };
    }
    Ok(objects)
}

/// Appends a member that lists an object for each call that a reason speaks of.
fn tell_calls(
    alloc: Global,
    text: &mut String,
    history: &History,
    lines: &[u64],
    recorded: usize,
    witness: &Witness,
) -> Result<(), AllocError>
    ensures { OnOk result (string_bytes text.new
        ≡ with_calls Form.Json history.now lines.now recorded witness.now (string_bytes text.old)) }
{
    let positions = told_positions(alloc, witness)?;
    let objects = call_objects(alloc, history, lines, recorded, &positions)?;
    match tell_objects(text, "calls-of-fault", &objects) {
        Ok(()) => Ok(()),
        Err(refused) => Err(refused),
    }
}

/// The answer that was begun with a reason, with the objects of its calls, if it is an object. So many calls were recorded.
pub(crate) fn with_calls(
    alloc: Global,
    form: Form,
    begun: String,
    history: &History,
    lines: &[u64],
    recorded: usize,
    witness: &Witness,
) -> Result<String, AllocError>
    ensures { IfOk result (λ text. string_bytes text
        ≡ with_calls form history.now lines.now recorded witness.now (string_bytes begun)) }
{
    let mut text = begun;
    match form {
        Form::Lines => Ok(text),
        Form::Json => match tell_calls(alloc, &mut text, history, lines, recorded, witness) {
            Ok(()) => Ok(text),
            Err(refused) => Err(refused),
        },
    }
}
