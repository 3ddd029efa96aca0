//! RRIParoo: predictions that age when a set is rewritten, and hit bits in memory until then.
#![tactic(auto)]

mod ageing;
mod hit_bits;
mod rriparoo;

pub use ageing::age;
pub use hit_bits::HitBits;
pub use rriparoo::Rriparoo;
