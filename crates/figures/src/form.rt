ghost use Rattle.std.specs.Prelude.{◌≡◌, ◌++◌, OnOk, string_bytes};
ghost use Rattle.figures.specs.Figures.{ended, figure_of, form_of, row, with_row};

use crate::figure::Figure;
use crate::telling::{push_json, push_plain};
use std::alloc::{AllocError, Global};

/// In which form figures are written.
#[derive(Clone, Copy, PartialEq, Eq)]
pub enum Form {
    /// A line for each: its name, a space, and the figure.
    Lines,
    /// One JSON object on a line, with a member for each.
    Json,
}

impl Form {
    /// JSON if that is wanted, otherwise lines.
    pub fn of(json: bool) -> Form
        ensures { result ≡ form_of json }
    {
        if json { Form::Json } else { Form::Lines }
    }

    /// Writes one figure more, after those that the text has. The first is written into an empty text. A name has small
    /// letters, digits and dashes alone. If memory is refused the text is a front of the whole.
    pub fn tell(
        self,
        alloc: Global,
        text: &mut String,
        name: &str,
        figure: Figure<'_>,
    ) -> Result<(), AllocError>
        ensures { OnOk result (string_bytes text.new
            ≡ with_row self (string_bytes text.old) (row name.now (figure_of figure.entry))) }
    {
        match self {
            Form::Lines => {
                text.push_str(name)?;
                text.push_str(" ")?;
                push_plain(alloc, text, figure)?;
                text.push_str("\n")
            }
            Form::Json => {
                let mark = if text.is_empty() { "{\"" } else { ",\"" };
                text.push_str(mark)?;
                text.push_str(name)?;
                text.push_str("\":")?;
                push_json(alloc, text, figure)
            }
        }
    }

    /// Ends what was written.
    pub fn end(self, text: &mut String) -> Result<(), AllocError>
        ensures { OnOk result (string_bytes text.new ≡ ended self (string_bytes text.old)) }
    {
        match self {
            Form::Lines => Ok(()),
            Form::Json => text.push_str("}\n"),
        }
    }
}
