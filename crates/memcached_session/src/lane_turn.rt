// What a server gives a step with a lane.

use item_lane::CommandTurn;

/// What a server gives a step with a lane beside the bytes: the turn of its command, and a number.
#[derive(Clone, Copy)]
pub struct LaneTurn {
    /// The moment, the number of the last flush, and the word of admission.
    pub command: CommandTurn,
    /// A number that no earlier item had: it is the item's if the step stores one.
    pub cas: u64,
}
