// The calls that end before they start.
ghost use Rattle.std.specs.Prelude.{◌<◌, ◌^◌, IfOk, OnOk, length};
ghost use Rattle.certificate_finder.specs.Finding.{IsReversed};
ghost use Rattle.certificate_finder.specs.Lists.{AreAllBelow, GrowsIf};

use std::alloc::{AllocError, Global};
use trace_file::History;

/// The positions of all calls that end before they start, in the order of the history.
pub(crate) fn reversed_of(alloc: Global, history: &History) -> Result<Vec<u32>, AllocError>
    requires { length history.now < 2 ^ 31 }
    ensures { IfOk result (λ reversed.
        AreAllBelow (IsReversed history.now) (length history.now) reversed.items) }
{
    let mut reversed = Vec::new(alloc);
    for position in 0..history.len() {
        let call = history.at(position);
        let is_reversed = call.end < call.start;
        list_if(&mut reversed, position as u32, is_reversed)?;
    }
    Ok(reversed)
}

/// Lists a position, if a test holds.
pub(crate) fn list_if(positions: &mut Vec<u32>, position: u32, test: bool) -> Result<(), AllocError>
    ensures { OnOk result (GrowsIf test position positions.old.items positions.new.items) }
{
    if test {
        positions.push(position)?;
    }
    Ok(())
}
