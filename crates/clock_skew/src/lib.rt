//! Histories whose calls were stamped by several clocks that do not agree.
//!
//! If each stamp is at most so far from the truth, the true history is one of many. `widened` gives one history that is accepted
//! wherever one of them is: each call starts earlier and ends later, and each value expires later. So if no certificate is accepted
//! for that one, none is for the truth.
#![tactic(auto)]

mod laws;
mod widening;

pub use laws::truth_stays_accepted;
pub use widening::widened;
