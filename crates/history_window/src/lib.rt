//! What a judge that reads a stream of calls may forget of those that it has read.
#![tactic(auto)]

mod blocks;
mod coded_call;
mod coding;
mod cuts;
mod key_state;
mod laws;
mod peak;
mod peaks;
mod ranks;
mod settling;
mod states;
mod streams;
mod tables;
mod windowing;

pub use laws::{
    accepted_have_past, forgetting_goes_on, lines_are_acceptable, pasts_pass, pieces_exclude,
    pieces_stand, standing_chains, standing_grows, unsettled_stand, warming_follows, window_stands,
};
pub use settling::unsettled;
pub use streams::{first_before, first_start, last_end, past, recent};
pub use windowing::window;
