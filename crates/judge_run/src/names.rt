// The callers' names.
ghost use Rattle.std.specs.Prelude.{◌≡◌, IfOk};
ghost use Rattle.history_picture.specs.Names.{names_of};

use std::alloc::{AllocError, Global};

/// A copy of some names.
pub(crate) fn copy_names(alloc: Global, names: &[Vec<u8>]) -> Result<Vec<Vec<u8>>, AllocError>
    ensures { IfOk result (λ copy. names_of copy.items ≡ names_of names.now) }
{
    let mut copy = Vec::new(alloc);
    for name in names {
        let name = Vec::from_slice(alloc, name.as_slice())?;
        copy.push(name)?;
    }
    Ok(copy)
}
