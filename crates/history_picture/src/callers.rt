// The callers' rows of a picture.
ghost use Rattle.std.specs.Prelude.{◌≡◌, IfOk, string_bytes};
ghost use Rattle.std.specs.List.{flat_map};
ghost use Rattle.history_picture.specs.Names.{names_of};
ghost use Rattle.history_picture.specs.Pictures.{caller_row};

use crate::drawing::Drawing;
use crate::escaped::escaped;
use crate::rows::caller_name;
use crate::scene::Scene;
use crate::strokes::{line, words_at};
use std::alloc::{AllocError, Global};

impl Drawing {
    /// The rows of the callers: a line and a name each.
    pub(crate) fn caller_rows(&self, alloc: Global, scene: &Scene<'_>) -> Result<String, AllocError>
        ensures { IfOk result (λ text. string_bytes text
            ≡ flat_map (caller_row (names_of scene.now.callers.now) self.now) self.now.callers.items) }
    {
        let mut text = String::new(alloc);
        for caller in &self.callers {
            let row = self.caller_row(alloc, scene, *caller)?;
            text.push_str(row.as_str())?;
        }
        Ok(text)
    }

    /// The row of a caller.
    #[tactic(auto, unfolding(crate::specs::Pictures::caller_row))]
    fn caller_row(
        &self,
        alloc: Global,
        scene: &Scene<'_>,
        caller: u16,
    ) -> Result<String, AllocError>
        ensures { IfOk result (λ text. string_bytes text
            ≡ caller_row (names_of scene.now.callers.now) self.now caller) }
    {
        let name = caller_name(alloc, scene, caller)?;
        let name = escaped(alloc, name.as_str())?;
        let top = self.y(caller);
        let left = self.across(0).saturating_sub(8);
        let line = line(alloc, left, top + 8, self.width())?;
        let name = words_at(alloc, 16, top + 12, name.as_str())?;
        format!(in alloc; "{line}{name}")
    }
}
