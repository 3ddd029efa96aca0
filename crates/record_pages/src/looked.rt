// What a look-up of a key in a tier on flash answers.
use crate::value::Value;

/// The answer of a tier on flash to a look-up of a key at a moment.
#[derive(Drop)]
pub enum Looked {
    /// The value of the first record with the key that the tier shows, which is live at the moment.
    Hit(Value),
    /// The first record with the key has expired.
    Expired,
    /// The tier shows no record with the key.
    Absent,
    /// The device failed.
    Fault,
    /// A page that was read is not the expected one, or has no record if one is expected.
    Damaged,
}
