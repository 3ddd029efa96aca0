//! The checker of recorded histories: whether an order that a certificate spells makes every hit true.
//!
//! A history is linearized (Herlihy and Wing 1990) by an order of its calls that agrees with their
//! recorded times. Such an order is lawful for a cache, which may forget but never invent, if each
//! hit reads its key's latest put that was not since removed and has not expired at the hit's moment.
#![tactic(auto)]

mod acceptance;
mod done;
mod fault;
mod judge_fault;
mod judged;
mod judgement;
mod laws;
mod lent_value;
mod places;
mod values;
mod verdict;
mod verdict_line;

pub use acceptance::{check, check_with_hasher};
pub use done::Done;
pub use fault::Fault;
pub use judge_fault::JudgeFault;
pub use judged::Judged;
pub use judgement::{judge, judge_with_hasher};
pub use laws::{
    accepted_has_no_fault, accepted_or_faulty, ends_may_move, first_fault_is_one,
    lanes_are_accepted, latest_is_current, lawful_grows, layout_exists, layout_is_one,
    placed_lanes_are_apart, verdict_line_exists, verdict_line_is_one,
};
pub use verdict::Verdict;
pub use verdict_line::{verdict_line_of, verdict_line_with_hasher};
