// What the hits of a history can have read.
use crate::owning::Owners;
use crate::put::Put;
use crate::ranked::Ranked;

/// What the hits of a history can have read.
#[derive(Drop)]
pub(crate) struct HitReads {
    /// The puts, by keys, values and starts.
    pub(crate) puts: Vec<Put>,
    /// With which write each call goes.
    pub(crate) owners: Owners,
    /// The hits that can have read no put, by their ends, those of one end by their positions.
    pub(crate) wrong: Vec<Ranked>,
}
