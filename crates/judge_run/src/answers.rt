// The ends of answers.
ghost use Rattle.std.specs.Prelude.{◌≡◌, IfOk, string_bytes};
ghost use Rattle.figures.specs.Figures.{ended};

use figures::Form;
use std::alloc::AllocError;

/// An answer, ended.
pub(crate) fn ended(form: Form, begun: String) -> Result<String, AllocError>
    ensures { IfOk result (λ text. string_bytes text ≡ ended form (string_bytes begun)) }
{
    let mut text = begun;
    match form.end(&mut text) {
        Ok(()) => Ok(text),
        Err(refused) => Err(refused),
    }
}
