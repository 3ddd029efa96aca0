// Runs of one sign, and words filled up to a width.
ghost use Rattle.std.specs.Prelude.{◌≡◌, IfOk, string_bytes};
ghost use Rattle.history_picture.specs.Rows.{left, right};

use std::alloc::{AllocError, Global};
use std::fmt;

/// This many spaces.
#[derive(Clone, Copy)]
pub(crate) struct Blanks(pub(crate) usize);

impl fmt::Display for Blanks {
    ghost use Rattle.std.specs.Prelude.{Some, replicate};

    ghost output = { λ blanks. Some (replicate blanks.0 32) };

    fn fmt<W: fmt::Write>(&self, f: &mut fmt::Formatter<W>) -> fmt::Result {
        for _i in 0..self.0 {
            write!(f, " ")?;
        }
        Ok(())
    }
}

/// This many equals signs.
#[derive(Clone, Copy)]
pub(crate) struct Dashes(pub(crate) usize);

impl fmt::Display for Dashes {
    ghost use Rattle.std.specs.Prelude.{Some, replicate};

    ghost output = { λ dashes. Some (replicate dashes.0 61) };

    fn fmt<W: fmt::Write>(&self, f: &mut fmt::Formatter<W>) -> fmt::Result {
        for _i in 0..self.0 {
            write!(f, "=")?;
        }
        Ok(())
    }
}

/// A word with spaces after it, up to a width.
#[tactic(auto, unfolding(crate::specs::Rows::left))]
pub(crate) fn padded_left(alloc: Global, word: &str, width: usize) -> Result<String, AllocError>
    ensures { IfOk result (λ text. string_bytes text ≡ left width word.now) }
{
    let blanks = Blanks(width.saturating_sub(word.len()));
    format!(in alloc; "{word}{blanks}")
}

/// A word with spaces before it, up to a width.
#[tactic(auto, unfolding(crate::specs::Rows::right))]
pub(crate) fn padded_right(alloc: Global, word: &str, width: usize) -> Result<String, AllocError>
    ensures { IfOk result (λ text. string_bytes text ≡ right width word.now) }
{
    let blanks = Blanks(width.saturating_sub(word.len()));
    format!(in alloc; "{blanks}{word}")
}
