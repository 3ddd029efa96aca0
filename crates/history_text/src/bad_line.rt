// The first line of a text that spells no call of its history.
ghost use Rattle.std.specs.Prelude.{◌≡◌, Some};

use crate::line_cause::LineCause;
use std::fmt;

/// The first bad line of a text, and why it is bad.
#[derive(Clone, Copy, PartialEq, Eq)]
pub struct BadLine {
    /// The number of the line; the first line has the number 1.
    pub number: u64,
    /// Why it is bad.
    pub cause: LineCause,
}

impl fmt::Display for BadLine {
    ghost use Rattle.history_text.specs.Causes.{bad_line_text};

    ghost output = { λ bad. Some (bad_line_text bad) };

    fn fmt<W: fmt::Write>(&self, f: &mut fmt::Formatter<W>) -> fmt::Result {
        write!(f, "bad line {}: {}", self.number, self.cause)
    }
}
