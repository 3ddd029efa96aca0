// A history that is rejected, and why.
ghost use Rattle.std.specs.Prelude.{◌≡◌, ◌++◌, IfOk, OnOk, string_bytes};
ghost use Rattle.judge_run.specs.Answers.{with_why};
ghost use Rattle.judge_run.specs.Told.{IsBehind, IsWhy};

use crate::answers::ended;
use crate::from_start::start_why;
use figures::{Figure, Form};
use history_picture::{Reason, Scene, explanation};
use std::alloc::{AllocError, Global};
use trace_file::History;

/// A history that is rejected, how its calls and callers are called, and why.
#[derive(Drop)]
pub struct Rejection {
    /// The calls.
    pub history: History,
    /// The line of each call, by its position; none if the history came as a trace.
    pub lines: Vec<u64>,
    /// The callers' names, by their numbers; none if the history came as a trace.
    pub callers: Vec<Vec<u8>>,
    /// The lines of the hits that read first what was there from the start, of the values that the reason speaks of.
    pub from_start: Vec<u64>,
    /// Why it is rejected.
    pub reason: Reason,
}

impl Rejection {
    /// What is spoken of and drawn.
    pub fn scene(&self) -> Scene<'_>
        ensures history { result.history.now ≡ self.now.history }
        ensures lines { result.lines.now ≡ self.now.lines.items }
        ensures callers { result.callers.now ≡ self.now.callers.items }
    {
        Scene {
            history: &self.history,
            lines: &self.lines,
            callers: &self.callers,
        }
    }

    /// Why it is rejected, and what of that was there from the start.
    pub(crate) fn why(&self, alloc: Global) -> Result<String, AllocError>
        ensures { IfOk result (λ why. IsWhy self.now (string_bytes why)) }
    {
        let explained = explanation(alloc, &self.scene(), &self.reason)?;
        let start = start_why(alloc, &self.from_start)?;
        let why = with_more(explained, start.as_str())?;
        Ok(why)
    }

    /// The answer that was begun with its verdict, and after that its explanation with this text at its end, if that is wanted.
    pub(crate) fn told_behind(
        &self,
        alloc: Global,
        form: Form,
        begun: String,
        explain: bool,
        more: &str,
    ) -> Result<String, AllocError>
        ensures { IfOk result (λ text.
            IsBehind form explain more.now self.now (string_bytes begun) (string_bytes text)) }
    {
        if !explain {
            return ended(form, begun);
        }
        let explained = self.why(alloc)?;
        let why = with_more(explained, more)?;
        let mut text = begun;
        tell_why(alloc, form, &mut text, why.as_str())?;
        match ended(form, text) {
            Ok(text) => Ok(text),
            Err(refused) => Err(refused),
        }
    }
}

/// A text with this at its end.
fn with_more(begun: String, more: &str) -> Result<String, AllocError>
    ensures { IfOk result (λ text. string_bytes text ≡ string_bytes begun ++ more.now) }
{
    let mut text = begun;
    text.push_str(more)?;
    Ok(text)
}

/// Tells why a history is rejected, after the answer that was begun.
fn tell_why(alloc: Global, form: Form, text: &mut String, why: &str) -> Result<(), AllocError>
    ensures { OnOk result (string_bytes text.new ≡ with_why form (string_bytes text.old) why.now) }
{
    match form {
        Form::Lines => text.push_str(why),
        Form::Json => form.tell(alloc, text, "explanation", Figure::Word(why)),
    }
}
