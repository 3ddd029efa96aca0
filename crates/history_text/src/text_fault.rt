ghost use Rattle.std.specs.Prelude.{◌≡◌};
ghost use Rattle.history_text.specs.declared.text_fault.TextFault.TheVariants.{Bad, OutOfMemory};

use crate::line_cause::LineCause;
use std::alloc::AllocError;

/// Why a line, or a word of one, was not taken.
#[derive(Clone, Copy, PartialEq, Eq)]
pub enum TextFault {
    /// It spells no call, or none that the history has room for.
    Bad(LineCause),
    /// Memory was refused.
    OutOfMemory,
}

impl From<AllocError> for TextFault {
    ghost from_gives = { λ _ e. e ≡ OutOfMemory };

    fn from(_refused: AllocError) -> TextFault {
        TextFault::OutOfMemory
    }
}

impl From<LineCause> for TextFault {
    ghost from_gives = { λ cause e. e ≡ Bad cause };

    fn from(cause: LineCause) -> TextFault {
        TextFault::Bad(cause)
    }
}
