// The objects that tell all faults.
ghost use Rattle.std.specs.Prelude.{◌≡◌, [], codes, IfOk, OnOk, map, string_bytes};
ghost use Rattle.figures.specs.Figures.{with_rows};
ghost use Rattle.judge_run.specs.FaultsTold.{fault_object, fault_rows, late_rows, with_faults};
ghost use Rattle.judge_run.specs.Objects.{object_of};

use crate::objects::tell_objects;
use crate::telling_rows::tell_reason;
use crate::told_fault::ToldFault;
use figures::{Figure, Form};
use std::alloc::{AllocError, Global};
use trace_file::History;

/// Tells how late a hit is, if that is known.
fn tell_late(
    alloc: Global,
    form: Form,
    text: &mut String,
    late: Option<u64>,
) -> Result<(), AllocError>
    ensures { OnOk result (string_bytes text.new
        ≡ with_rows form (string_bytes text.old) (late_rows late)) }
{
    match late {
        Some(time) => form.tell(alloc, text, "late", Figure::Count(time)),
        None => Ok(()),
    }
}

/// Tells a fault.
fn tell_fault(
    alloc: Global,
    form: Form,
    text: &mut String,
    history: &History,
    lines: &[u64],
    recorded: usize,
    fault: &ToldFault,
) -> Result<(), AllocError>
    ensures { OnOk result (string_bytes text.new
        ≡ with_rows form (string_bytes text.old) (fault_rows history.now lines.now recorded fault.now)) }
{
    tell_reason(alloc, form, text, history, lines, recorded, &fault.reason)?;
    match tell_late(alloc, form, text, fault.late) {
        Ok(()) => Ok(()),
        Err(refused) => Err(refused),
    }
}

/// The object of a fault.
fn fault_object(
    alloc: Global,
    history: &History,
    lines: &[u64],
    recorded: usize,
    fault: &ToldFault,
) -> Result<String, AllocError>
    ensures { IfOk result (λ text. string_bytes text
        ≡ fault_object history.now lines.now recorded fault.now) }
{
    let mut text = String::new(alloc);
    tell_fault(
        alloc,
        Form::Json,
        &mut text,
        history,
        lines,
        recorded,
        fault,
    )?;
    text.push_str("}")?;
    Ok(text)
}

/// The objects of faults.
fn fault_objects(
    alloc: Global,
    history: &History,
    lines: &[u64],
    recorded: usize,
    faults: &[ToldFault],
) -> Result<Vec<String>, AllocError>
    ensures { IfOk result (λ objects. map string_bytes objects.items
        ≡ map (fault_object history.now lines.now recorded) faults.now) }
{
    let mut objects = Vec::new(alloc);
    for fault in faults {
        let object = fault_object(alloc, history, lines, recorded, fault)?;
        let Ok(()) = objects.push(object) else {
            return Err(AllocError);
        };
    }
    Ok(objects)
}

/// Appends a member that lists an object for each fault.
pub(crate) fn tell_faults(
    alloc: Global,
    text: &mut String,
    history: &History,
    lines: &[u64],
    recorded: usize,
    faults: &[ToldFault],
) -> Result<(), AllocError>
    ensures { OnOk result (string_bytes text.new
        ≡ with_faults Form.Json history.now lines.now recorded faults.now (string_bytes text.old)) }
{
    let objects = fault_objects(alloc, history, lines, recorded, faults)?;
    match tell_objects(text, "faults", &objects) {
        Ok(()) => Ok(()),
        Err(refused) => Err(refused),
    }
}
