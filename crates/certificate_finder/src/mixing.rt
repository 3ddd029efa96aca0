// Putting together owners by several rules.
ghost use Rattle.std.specs.Prelude.{◌≡◌, ◌<◌, All, length};
ghost use Rattle.certificate_finder.specs.Deciding.{AreMixed, IsMixedAt};

use crate::items::item_at;
use crate::numbered_call::NumberedCall;

/// A number above that of each key.
pub(crate) fn keys_in(steps: &[NumberedCall]) -> usize
    ensures { All (λ step. step.key < result) steps.now }
{
    let mut keys = 0;
    for position in 0..steps.len() {
        let step = item_at(steps, position);
        keys = keys.max(step.key as usize + 1);
    }
    keys
}

/// Gives each call of a stuck key its owner by a choice.
pub(crate) fn mix_owners(
    owners: &mut Vec<u32>,
    steps: &[NumberedCall],
    stuck: &[bool],
    chosen: &[u32],
)
    requires keys { All (λ step. step.key < length stuck.now) steps.now }
    requires count { length owners.old.items ≡ length steps.now }
    requires chosen { length chosen.now ≡ length steps.now }
    ensures { AreMixed steps.now stuck.now chosen.now owners.old.items owners.new.items }
{
    for position in 0..steps.len() {
        let owner = mixed_owner(owners.as_slice(), steps, stuck, chosen, position);
        owners[position] = owner;
    }
}

/// The owner of the call at a position: by a choice, if its key is stuck, otherwise that which it has.
fn mixed_owner(
    owners: &[u32],
    steps: &[NumberedCall],
    stuck: &[bool],
    chosen: &[u32],
    position: usize,
) -> u32
    requires keys { All (λ step. step.key < length stuck.now) steps.now }
    requires count { length owners.now ≡ length steps.now }
    requires chosen { length chosen.now ≡ length steps.now }
    requires within { position < length steps.now }
    ensures { IsMixedAt steps.now stuck.now chosen.now owners.now position result }
{
    let step = item_at(steps, position);
    if item_at(stuck, step.key as usize) {
        item_at(chosen, position)
    } else {
        item_at(owners, position)
    }
}
