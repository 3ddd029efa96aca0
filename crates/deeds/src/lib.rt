//! A store that knows, in proofs, all that it was asked and answered; and the laws of what its lane shows after that.
#![tactic(auto)]

mod store;
mod telling;
mod trail;
mod trail_step;

pub use store::DeedStore;
pub use telling::act_lent;
