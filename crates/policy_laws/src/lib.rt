//! What a policy of eviction and a policy of admission are, and the plan that keeps items by rank.
#![tactic(auto)]

mod candidate;
mod choice;
mod fifo;
mod item;
mod job;
mod policy;
mod pre_flash;
mod rank;
mod ranking;

pub use candidate::Candidate;
pub use choice::{Choice, Plan};
pub use fifo::Fifo;
pub use item::{Item, Items};
pub use job::Job;
pub use policy::EvictionPolicy;
pub use pre_flash::PreFlash;
pub use rank::Rank;
pub use ranking::plan_by_rank;
