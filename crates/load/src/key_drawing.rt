// Which key a random word draws.
ghost use Rattle.std.specs.Prelude.{◌≡◌, ◌<◌, IfOk};
ghost use Rattle.load.specs.Served.{key_drawn, ranks_of};

use crate::serve_load::ServeLoad;
use std::alloc::{AllocError, Global};
use zipf::{Ranks, scattered};

/// The ranks of a load's keys if they are drawn by Zipf's law, for all its callers; none if they are drawn alike. It is an error
/// only if memory runs out.
pub fn ranks_of(alloc: Global, load: &ServeLoad) -> Result<Option<Ranks>, AllocError>
    ensures { IfOk result (λ ranks. ranks ≡ ranks_of load.now) }
{
    if load.zipf {
        let ranks = Ranks::new(alloc, load.keys)?;
        Ok(Some(ranks))
    } else {
        Ok(None)
    }
}

/// The number of the key that a word draws.
pub(crate) fn key_drawn(load: &ServeLoad, ranks: &Option<Ranks>, word: u32) -> u32
    requires { ranks.now ≡ ranks_of load.now }
    ensures key { result ≡ key_drawn load.now word }
    ensures own { result < load.now.keys }
{
    match ranks {
        Some(ranks) => scattered(load.keys, load.seed, ranks.rank(word)),
        None => word % load.keys,
    }
}
