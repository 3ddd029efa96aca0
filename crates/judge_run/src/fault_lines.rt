// The lines that tell all faults.
ghost use Rattle.std.specs.Prelude.{◌≡◌, ◌++◌, IfOk, OnOk, string_bytes};
ghost use Rattle.std.specs.List.{flat_map};
ghost use Rattle.judge_run.specs.FaultsTold.{fault_text, late_text};

use crate::from_start::{start_lines, start_text};
use crate::reason_text::reason_text;
use crate::told_fault::ToldFault;
use std::alloc::{AllocError, Global};
use trace_file::History;

/// How late a hit is, after a space; nothing if that is not known.
fn late_text(alloc: Global, late: Option<u64>) -> Result<String, AllocError>
    ensures { IfOk result (λ text. string_bytes text ≡ late_text late) }
{
    match late {
        Some(time) => format!(in alloc; " late {time}"),
        None => Ok(String::new(alloc)),
    }
}

/// The line of a fault of a history of which so many calls were recorded, with its line feed.
pub(crate) fn fault_text(
    alloc: Global,
    history: &History,
    lines: &[u64],
    recorded: usize,
    fault: &ToldFault,
) -> Result<String, AllocError>
    ensures { IfOk result (λ text. string_bytes text
        ≡ fault_text history.now lines.now recorded fault.now) }
{
    let reason = reason_text(alloc, history, lines, &fault.reason)?;
    let late = late_text(alloc, fault.late)?;
    let start = start_lines(alloc, lines, recorded, &fault.reason)?;
    let start = start_text(alloc, &start)?;
    format!(in alloc; "fault {reason}{late}{start}\n")
}

/// Appends a line for each fault.
pub(crate) fn push_faults(
    alloc: Global,
    text: &mut String,
    history: &History,
    lines: &[u64],
    recorded: usize,
    faults: &[ToldFault],
) -> Result<(), AllocError>
    ensures { OnOk result (string_bytes text.new
        ≡ string_bytes text.old ++ flat_map (fault_text history.now lines.now recorded) faults.now) }
{
    for fault in faults {
        let line = fault_text(alloc, history, lines, recorded, fault)?;
        text.push_str(line.as_str())?;
    }
    Ok(())
}
