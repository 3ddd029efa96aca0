// Telling all faults after a verdict, and how many there are.
ghost use Rattle.std.specs.Prelude.{◌≡◌, IfOk, OnOk, string_bytes};
ghost use Rattle.judge_run.specs.FaultsTold.{keys_text, listed, more_text, with_faults};

use crate::fault_lines::push_faults;
use crate::fault_objects::tell_faults;
use crate::rejection::Rejection;
use crate::told_fault::ToldFault;
use figures::Form;
use std::alloc::{AllocError, Global};
use trace_file::History;

/// Tells faults after an answer that was begun.
fn tell_all(
    alloc: Global,
    form: Form,
    text: &mut String,
    history: &History,
    lines: &[u64],
    recorded: usize,
    faults: &[ToldFault],
) -> Result<(), AllocError>
    ensures { OnOk result (string_bytes text.new
        ≡ with_faults form history.now lines.now recorded faults.now (string_bytes text.old)) }
{
    match form {
        Form::Lines => match push_faults(alloc, text, history, lines, recorded, faults) {
            Ok(()) => Ok(()),
            Err(refused) => Err(refused),
        },
        Form::Json => match tell_faults(alloc, text, history, lines, recorded, faults) {
            Ok(()) => Ok(()),
            Err(refused) => Err(refused),
        },
    }
}

/// The answer that was begun, and all faults after it, if that is wanted. So many calls were recorded.
pub(crate) fn listed(
    alloc: Global,
    form: Form,
    wanted: bool,
    begun: String,
    rejection: &Rejection,
    recorded: usize,
    faults: &[ToldFault],
) -> Result<String, AllocError>
    ensures { IfOk result (λ text. string_bytes text
        ≡ listed form wanted rejection.now.history rejection.now.lines.items recorded faults.now
        (string_bytes begun)) }
{
    if !wanted {
        return Ok(begun);
    }
    let mut text = begun;
    let history = &rejection.history;
    match tell_all(
        alloc,
        form,
        &mut text,
        history,
        &rejection.lines,
        recorded,
        faults,
    ) {
        Ok(()) => Ok(text),
        Err(refused) => Err(refused),
    }
}

/// At how many keys faults are.
fn keys_text(alloc: Global, keys: usize) -> Result<String, AllocError>
    ensures { IfOk result (λ text. string_bytes text ≡ keys_text keys) }
{
    if keys == 1 {
        String::from_str(alloc, "one key")
    } else {
        format!(in alloc; "{keys} keys")
    }
}

/// How many faults there are, and at how many keys; nothing if there is no other one.
pub(crate) fn more_text(alloc: Global, faults: usize, keys: usize) -> Result<String, AllocError>
    ensures { IfOk result (λ text. string_bytes text ≡ more_text faults keys) }
{
    if faults <= 1 {
        return Ok(String::new(alloc));
    }
    let places = keys_text(alloc, keys)?;
    format!(in alloc; "this is one of {faults} faults, at {places}\n")
}
