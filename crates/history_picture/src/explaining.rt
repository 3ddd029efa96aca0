// Saying in lines of text why a history is rejected.
ghost use Rattle.std.specs.Prelude.{IfOk, string_bytes};
ghost use Rattle.history_picture.specs.Names.{names_of};
ghost use Rattle.history_picture.specs.Shown.{IsExplanation};

use crate::marks::marks;
use crate::reason::Reason;
use crate::scene::Scene;
use crate::sheet::Sheet;
use crate::shown::{MOST_CALLS, shown};
use std::alloc::{AllocError, Global};

/// The text that explains a reason: a sentence, then a line for each of at most 24 calls, those that matter marked by an
/// asterisk. Keys and values are percent-coded and cut to 24 characters.
///
/// A line has the call's line or position, its caller, its start and end, what it did with its value, and a bar. The bars
/// have a column for each stamp that is shown, in their order: what stands left of something was earlier.
pub fn explanation(alloc: Global, scene: &Scene<'_>, reason: &Reason) -> Result<String, AllocError>
    ensures { IfOk result (λ text. IsExplanation scene.now.history.now scene.now.lines.now
        (names_of scene.now.callers.now) reason.now (string_bytes text)) }
{
    let sentence = scene.sentence(alloc, reason)?;
    let matter = marks(alloc, reason)?;
    let marks = matter.as_slice();
    let chosen = shown(alloc, scene.history, marks, MOST_CALLS)?;
    let shown = chosen.as_slice();
    let sheet = Sheet::of(alloc, scene, shown)?;
    let rows = scene.rows(alloc, marks, &sheet, shown)?;
    let text = format!(in alloc; "{sentence}\n{rows}")?;
    Ok(text)
}
