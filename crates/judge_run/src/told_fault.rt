// A fault, as it is told.
use certificate_finder::Witness;

/// A fault of a history that is rejected, as it is told.
#[derive(Drop)]
pub struct ToldFault {
    /// The reason. Of the puts of a wrong hit it has the first eight.
    pub reason: Witness,
    /// How late a wrong hit is, by all its puts, if that is known.
    pub late: Option<u64>,
}
