// Drawing why a history is rejected.
ghost use Rattle.std.specs.Prelude.{◌≡◌, IfErr, IfOk, OnOk, string_bytes};
ghost use Rattle.std.specs.Io.KnownBytes.{Keeps};
ghost use Rattle.std.specs.List.{flat_map};
ghost use Rattle.history_picture.specs.Drawn.{BeganPicture, IsDrawnOf, IsPicture, WrotePicture};
ghost use Rattle.history_picture.specs.Names.{names_of};
ghost use Rattle.history_picture.specs.Pictures.{calls_text, head_text, picture_text, sign_text};

use crate::arrows::{Arrow, arrows};
use crate::drawing::Drawing;
use crate::escaped::on_lines;
use crate::explain_fault::ExplainFault;
use crate::labels::marked_count;
use crate::marks::marks;
use crate::reason::Reason;
use crate::scene::Scene;
use crate::shown::{MOST_CALLS, shown};
use crate::wrapping::{feeds, wrapped};
use std::alloc::{AllocError, Global};
use std::io::Write;
use trace_file::{Unwritten, write_whole};

/// A picture of a reason, as the text of an SVG file: the sentence, broken into lines, a row for each caller, and in it a bar
/// for each of its calls, of at most 24. Each call that matters is in colour, with its label on a line of its own, and there
/// is an arrow from a call to one that it precedes if that matters.
///
/// There is a column for each stamp that is shown, in their order: what lies left of something was earlier. Under it stands
/// how long after the first one it came.
pub fn picture(alloc: Global, scene: &Scene<'_>, reason: &Reason) -> Result<String, AllocError>
    ensures { IfOk result (λ text. IsPicture scene.now.history.now scene.now.lines.now
        (names_of scene.now.callers.now) reason.now (string_bytes text)) }
{
    let sentence = scene.sentence(alloc, reason)?;
    let matter = marks(alloc, reason)?;
    let marks = matter.as_slice();
    let chosen = shown(alloc, scene.history, marks, MOST_CALLS)?;
    let shown = chosen.as_slice();
    let text = drawn(alloc, scene, reason, sentence.as_str(), marks, shown)?;
    Ok(text)
}

/// The picture of a reason with this sentence, if these calls matter and those are shown.
fn drawn(
    alloc: Global,
    scene: &Scene<'_>,
    reason: &Reason,
    sentence: &str,
    marks: &[u32],
    shown: &[u32],
) -> Result<String, AllocError>
    ensures { IfOk result (λ text. IsDrawnOf scene.now.history.now scene.now.lines.now
        (names_of scene.now.callers.now) reason.now sentence.now marks.now shown.now
        (string_bytes text)) }
{
    let broken = wrapped(alloc, sentence)?;
    let lines = broken.as_slice();
    let labels = marked_count(marks, shown);
    let drawing = Drawing::of(alloc, scene, shown, feeds(lines), labels)?;
    let known = arrows(alloc, reason)?;
    let arrows = known.as_slice();
    match drawing.whole(alloc, scene, lines, marks, shown, arrows) {
        Ok(text) => Ok(text),
        Err(refused) => Err(refused),
    }
}

impl Drawing {
    /// The whole picture.
    #[tactic(auto, unfolding(crate::specs::Pictures::picture_text))]
    fn whole(
        &self,
        alloc: Global,
        scene: &Scene<'_>,
        lines: &[u8],
        marks: &[u32],
        shown: &[u32],
        arrows: &[Arrow],
    ) -> Result<String, AllocError>
        ensures { IfOk result (λ text. string_bytes text ≡ picture_text scene.now.history.now
            scene.now.lines.now (names_of scene.now.callers.now) lines.now self.now marks.now
            shown.now arrows.now) }
    {
        let head = self.begun(alloc, lines)?;
        let axis = self.axis(alloc)?;
        let rows = self.caller_rows(alloc, scene)?;
        let calls = self.calls(alloc, scene, marks, shown)?;
        let ways = self.arrow_lines(alloc, scene.history, arrows)?;
        format!(in alloc; "{head}{axis}{rows}{calls}{ways}</svg>\n")
    }

    /// The head of the picture, with its size and the lines of the sentence.
    fn begun(&self, alloc: Global, lines: &[u8]) -> Result<String, AllocError>
        ensures { IfOk result (λ text. string_bytes text
            ≡ head_text self.now (flat_map sign_text lines.now)) }
    {
        let sentence = on_lines(alloc, lines)?;
        match self.head(alloc, sentence.as_str()) {
            Ok(text) => Ok(text),
            Err(refused) => Err(refused),
        }
    }

    /// The head of the picture, with its size and the sentence.
    #[tactic(auto, unfolding(crate::specs::Pictures::head_text))]
    fn head(&self, alloc: Global, sentence: &str) -> Result<String, AllocError>
        ensures { IfOk result (λ text. string_bytes text ≡ head_text self.now sentence.now) }
    {
        let width = self.width();
        let height = self.height();
        format!(in alloc;
            "<svg xmlns=\"http://www.w3.org/2000/svg\" width=\"{width}\" height=\"{height}\" font-family=\"monospace\" font-size=\"13\">\n<defs><marker id=\"point\" viewBox=\"0 0 8 8\" refX=\"8\" refY=\"4\" markerWidth=\"7\" markerHeight=\"7\" orient=\"auto\"><path d=\"M 0 0 L 8 4 L 0 8 z\" fill=\"#b3261e\"/></marker></defs>\n<rect width=\"100%\" height=\"100%\" fill=\"#ffffff\"/>\n<text y=\"6\"><tspan x=\"16\" dy=\"18\">{sentence}</tspan></text>\n"
        )
    }

    /// The labels of the calls that matter, and a bar for each call.
    #[tactic(auto, unfolding(crate::specs::Pictures::calls_text))]
    fn calls(
        &self,
        alloc: Global,
        scene: &Scene<'_>,
        marks: &[u32],
        shown: &[u32],
    ) -> Result<String, AllocError>
        ensures { IfOk result (λ text. string_bytes text ≡ calls_text scene.now.history.now
            scene.now.lines.now self.now marks.now shown.now) }
    {
        let labels = self.labels(alloc, scene, marks, shown)?;
        let bars = self.bars(alloc, scene, marks, shown)?;
        format!(in alloc; "{labels}{bars}")
    }
}

/// Writes a picture of a reason. A write that fails is not tried again, and nothing is flushed.
pub fn draw<W: Write>(
    alloc: Global,
    scene: &Scene<'_>,
    reason: &Reason,
    to: &mut W,
) -> Result<(), ExplainFault>
    ensures ok { OnOk result (WrotePicture scene.now.history.now scene.now.lines.now
        (names_of scene.now.callers.now) reason.now (W.contents to.old) (W.contents to.new)) }
    ensures memory { IfErr result (λ fault. fault ≡ ExplainFault.OutOfMemory
        → Keeps (W.contents to.old) (W.contents to.new)) }
    ensures began { IfErr result (λ fault. fault ≡ ExplainFault.WriteFault
        → BeganPicture scene.now.history.now scene.now.lines.now
        (names_of scene.now.callers.now) reason.now (W.contents to.old) (W.contents to.new)) }
{
    let text = picture(alloc, scene, reason)?;
    match write_whole(to, text.as_bytes()) {
        Ok(()) => Ok(()),
        Err(Unwritten) => Err(ExplainFault::WriteFault),
    }
}
