// What a get answers.
use crate::miss_cause::MissCause;
use crate::tier::Tier;
use crate::value::Value;

/// The answer to a get: the key's value with the tier that held it, or a miss with its cause.
#[derive(Drop)]
pub enum Answer {
    /// A copy of the value, and where it was found.
    Hit(Value, Tier),
    /// No value, and why.
    Miss(MissCause),
}
