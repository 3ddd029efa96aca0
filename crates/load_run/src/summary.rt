// What is reported of a run that was judged.
ghost use Rattle.std.specs.Prelude.{◌≡◌, IfOk, string_bytes};
ghost use Rattle.figures.specs.declared.form.Form.TheVariants.{Json};
ghost use Rattle.figures.specs.Figures.{text_of_rows};

use certificate_checker::Verdict;
use figures::{Figure, Form, tell_verdict};
use std::alloc::{AllocError, Global};

/// What is reported of a run that was judged.
#[derive(Clone, Copy, PartialEq, Eq)]
pub struct Summary {
    /// Recorded calls.
    pub calls: usize,
    /// Those of them that are hits.
    pub hits: usize,
    /// Callers that stopped at a refusal.
    pub stopped: usize,
    /// The checker's verdict.
    pub verdict: Verdict,
}

impl Summary {
    ghost use Rattle.load_run.specs.Summaries.{lines_of, rows_of, text_of};

    /// What is reported of it: four lines, each with its line feed, or a JSON object on a line.
    pub fn text(&self, alloc: Global, form: Form) -> Result<String, AllocError>
        ensures { IfOk result (λ text. string_bytes text ≡ text_of form self.now) }
    {
        match form {
            Form::Lines => match self.lines(alloc) {
                Ok(text) => Ok(text),
                Err(refused) => Err(refused),
            },
            Form::Json => match self.json(alloc) {
                Ok(text) => Ok(text),
                Err(refused) => Err(refused),
            },
        }
    }

    /// Its four lines.
    fn lines(&self, alloc: Global) -> Result<String, AllocError>
        ensures { IfOk result (λ lines. string_bytes lines ≡ lines_of self.now) }
    {
        let verdict = self.verdict.line(alloc, self.calls)?;
        format!(in alloc;
            "calls {}\nhits {}\nstopped {}\n{verdict}\n",
            self.calls, self.hits, self.stopped
        )
    }

    /// The JSON object of its figures.
    fn json(&self, alloc: Global) -> Result<String, AllocError>
        ensures { IfOk result (λ text. string_bytes text ≡ text_of_rows Json (rows_of self.now)) }
    {
        let form = Form::Json;
        let mut text = String::new(alloc);
        form.tell(alloc, &mut text, "calls", Figure::Count(self.calls as u64))?;
        form.tell(alloc, &mut text, "hits", Figure::Count(self.hits as u64))?;
        form.tell(
            alloc,
            &mut text,
            "stopped",
            Figure::Count(self.stopped as u64),
        )?;
        tell_verdict(alloc, form, &mut text, self.verdict)?;
        form.end(&mut text)?;
        Ok(text)
    }
}
