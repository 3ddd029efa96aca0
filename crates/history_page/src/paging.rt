// The page.
ghost use Rattle.std.specs.Prelude.{◌≡◌, IfOk};
ghost use Rattle.history_picture.specs.Names.{names_of};
ghost use Rattle.history_page.specs.Pages.{page_text};

use crate::call_lines::push_calls;
use crate::fixed::{HEAD, MIDDLE, TAIL};
use crate::guarding::{push_guarded, push_text};
use history_picture::Scene;
use std::alloc::{AllocError, Global};

/// The page of a history of which so many calls were recorded, as the bytes of an HTML file: it draws the calls, and
/// tells what the report says. The report has the lines of the verdict, and then for each fault its line and its sentence, as `judge
/// --all` and `--explain` write them.
///
/// What is put into the page has no `<`. In its place stands `%3C`, which no word has otherwise, and the page reads it back.
pub fn page(
    alloc: Global,
    scene: &Scene<'_>,
    recorded: usize,
    report: &str,
) -> Result<Vec<u8>, AllocError>
    ensures { IfOk result (λ page. page.items ≡ page_text scene.now.history.now scene.now.lines.now
        (names_of scene.now.callers.now) recorded report.now) }
{
    let mut page = Vec::new(alloc);
    push_text(&mut page, HEAD)?;
    push_calls(alloc, &mut page, scene, recorded)?;
    push_text(&mut page, MIDDLE)?;
    push_guarded(&mut page, report)?;
    push_text(&mut page, TAIL)?;
    Ok(page)
}
