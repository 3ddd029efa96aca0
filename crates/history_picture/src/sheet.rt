// The measures of the lines of some calls.
use crate::call_at::call_at;
use crate::columns::stamps_of;
use crate::rows::{caller_name, end_text, value_text};
use crate::scene::Scene;
use std::alloc::{AllocError, Global};
use trace_file::CallRef;

/// The measures of the lines of some calls: the stamps that have columns, and the widths of the words, in characters.
#[derive(Drop)]
pub struct Sheet {
    /// The stamps, each once and rising.
    pub stamps: Vec<u64>,
    /// The width of lines or positions.
    pub labels: usize,
    /// The width of callers' names.
    pub callers: usize,
    /// The width of starts.
    pub starts: usize,
    /// The width of ends.
    pub ends: usize,
    /// The width of values.
    pub values: usize,
}

impl Sheet {
    ghost use Rattle.std.specs.Prelude.{IfOk, OnOk};
    ghost use Rattle.trace_file.specs.Lent.{call_shown};
    ghost use Rattle.history_picture.specs.Measures.{IsFit, IsSheet, IsWidened};
    ghost use Rattle.history_picture.specs.Names.{names_of};

    /// The measures for the calls at these positions.
    pub(crate) fn of(alloc: Global, scene: &Scene<'_>, shown: &[u32]) -> Result<Sheet, AllocError>
        ensures { IfOk result (λ sheet. IsSheet scene.now.history.now scene.now.lines.now
            (names_of scene.now.callers.now) shown.now sheet) }
    {
        let mut sheet = Sheet {
            stamps: stamps_of(alloc, scene.history, shown)?,
            labels: 0,
            callers: 0,
            starts: 0,
            ends: 0,
            values: 0,
        };
        for position in shown {
            sheet.widen_at(alloc, scene, *position)?;
        }
        Ok(sheet)
    }

    /// Makes the words of the call at a position fit.
    fn widen_at(
        &mut self,
        alloc: Global,
        scene: &Scene<'_>,
        position: u32,
    ) -> Result<(), AllocError>
        ensures { OnOk result (IsWidened scene.now.history.now scene.now.lines.now
            (names_of scene.now.callers.now) position self.old self.new) }
    {
        let label = scene.label_number(position).to_string(alloc)?;
        self.labels = self.labels.max(label.len());
        let Some(call) = call_at(scene.history, position) else {
            return Ok(());
        };
        self.widen(alloc, scene, &call)?;
        Ok(())
    }

    /// Makes the words of a call fit.
    fn widen(
        &mut self,
        alloc: Global,
        scene: &Scene<'_>,
        call: &CallRef<'_>,
    ) -> Result<(), AllocError>
        ensures { OnOk result (IsFit (names_of scene.now.callers.now) (call_shown call.now)
            self.old self.new) }
    {
        let caller = caller_name(alloc, scene, call.caller)?;
        let start = call.start.to_string(alloc)?;
        let end = end_text(alloc, call.end)?;
        let value = value_text(alloc, &call.act)?;
        self.callers = self.callers.max(caller.len());
        self.starts = self.starts.max(start.len());
        self.ends = self.ends.max(end.len());
        self.values = self.values.max(value.len());
        Ok(())
    }
}
