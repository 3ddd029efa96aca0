// Looking calls, lines and names up.
ghost use Rattle.std.specs.Prelude.{◌≡◌, option_map, slice_get};
ghost use Rattle.trace_file.specs.Lent.{call_shown};
ghost use Rattle.history_picture.specs.Names.{names_of};

use trace_file::{CallRef, History};

/// The call at a position, if there is one.
pub(crate) fn call_at(history: &History, position: u32) -> Option<CallRef<'_>>
    ensures { slice_get history.now position ≡ option_map call_shown result }
{
    history.get(position as usize)
}

/// The line of the call at a position, if it has one.
#[tactic(auto, using(std::proofs::lemmas::Option::slice_get_past))]
pub(crate) fn line_at(lines: &[u64], position: u32) -> Option<u64>
    ensures { slice_get lines.now position ≡ result }
{
    let position = position as usize;
    if position < lines.len() {
        Some(lines[position])
    } else {
        None
    }
}

/// The name of a caller, if it has one.
#[tactic(auto, using(std::proofs::lemmas::Option::slice_get_past))]
pub(crate) fn name_at(names: &[Vec<u8>], caller: u16) -> Option<&[u8]>
    ensures { slice_get (names_of names.now) caller ≡ option_map (λ name. name.now) result }
{
    let caller = caller as usize;
    if caller < names.len() {
        Some(names[caller].as_slice())
    } else {
        None
    }
}
