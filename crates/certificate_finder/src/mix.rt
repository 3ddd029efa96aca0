// Owners by several rules.
ghost use Rattle.std.specs.Prelude.{◌≡◌, ◌↔◌, All, Contains, IfOk, IsTrue, length, true};

use crate::flags::is_some_set;
use crate::mixing::{keys_in, mix_owners};
use crate::numbered_call::NumberedCall;
use std::alloc::{AllocError, Global};

/// With which call each goes, by the rule of its key: the first one whose choice leaves no two zones of the key crossed.
#[derive(Drop)]
pub(crate) struct Mix {
    /// For each call the one that it goes with. If its key is stuck, that is so by the rule that was tried last.
    pub(crate) owners: Vec<u32>,
    /// For each number of a key whether it is stuck: by each rule so far two zones of the key are crossed.
    pub(crate) stuck: Vec<bool>,
}

impl Mix {
    ghost use Rattle.certificate_finder.specs.Deciding.{AreMixed, IsMix};

    /// Before the first rule: each key is stuck.
    pub(crate) fn of(
        alloc: Global,
        steps: &[NumberedCall],
        owners: &[u32],
    ) -> Result<Mix, AllocError>
        requires { length owners.now ≡ length steps.now }
        ensures mix { IfOk result (IsMix steps.now) }
        ensures stuck { IfOk result (λ mix. All (λ flag. flag ≡ true) mix.stuck.items) }
    {
        let stuck = vec![in alloc; true; keys_in(steps)]?;
        let owners = owners.to_vec(alloc)?;
        Ok(Mix { owners, stuck })
    }

    /// Gives the calls of each stuck key their owners by a choice, and notes which keys are stuck from now on.
    pub(crate) fn take(&mut self, steps: &[NumberedCall], chosen: &[u32], still: Vec<bool>)
        requires mix { IsMix steps.now self.old }
        requires count { length chosen.now ≡ length steps.now }
        ensures mixed { AreMixed steps.now self.old.stuck.items chosen.now
            self.old.owners.items self.new.owners.items }
        ensures still { self.new.stuck.items ≡ still.items }
    {
        mix_owners(&mut self.owners, steps, self.stuck.as_slice(), chosen);
        self.stuck = still;
    }

    /// Whether some key is stuck.
    pub(crate) fn is_stuck(&self) -> bool
        ensures { IsTrue result ↔ Contains self.now.stuck.items true }
    {
        is_some_set(self.stuck.as_slice())
    }
}
