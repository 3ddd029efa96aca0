// The operations of a load of a cache that serves, by random words.
ghost use Rattle.std.specs.Prelude.{◌≡◌, ◌<◌};

use crate::key_drawing::key_drawn;
use crate::serve_load::ServeLoad;
use rand_core::utils::NextWord;
use rand_pcg::Lcg64Xsh32;
use zipf::Ranks;

/// What a caller of a cache that serves does with the key of its own that has this number.
#[derive(Clone, Copy, PartialEq, Eq)]
pub enum ServeOperation {
    /// It looks the key up.
    Get(u32),
    /// It removes the key.
    Remove(u32),
    /// It puts a value.
    Put(u32),
}

impl ServeOperation {
    ghost use Rattle.load.specs.Operations.{past};
    ghost use Rattle.load.specs.Served.{key_number_of, ranks_of, served_next_of};

    /// What a caller does next, by its generator's next words: one for the kind, one for the key. The ranks are those of the load's
    /// keys.
    pub fn next(
        generator: &mut Lcg64Xsh32,
        load: &ServeLoad,
        ranks: &Option<Ranks>,
    ) -> ServeOperation
        requires { ranks.now ≡ ranks_of load.now }
        ensures operation { result ≡ served_next_of load.now generator.old }
        ensures generator { generator.new ≡ past (past generator.old) }
        ensures own { key_number_of result < load.now.keys }
    {
        let kind = generator.next_word() % 100;
        let word = generator.next_word();
        let key = key_drawn(load, ranks, word);
        if kind < load.gets {
            ServeOperation::Get(key)
        } else if kind < load.gets + load.removes {
            ServeOperation::Remove(key)
        } else {
            ServeOperation::Put(key)
        }
    }
}
