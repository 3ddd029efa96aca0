//! Worlds of recorded lanes: events that are played in them, and the calls of lanes laid out as one history.
#![tactic(auto)]

mod act_reply;
mod dones;
mod event;
mod game;
mod lane_calls;
mod lane_head;
mod lane_played;
mod laws;
mod layout;
mod ledger;
mod merging;
mod next_call;
mod open_call;
mod open_world_fault;
mod operation;
mod phase;
mod played;
mod played_lane;
mod playing;
mod recorded_call;
mod reply;
mod stamps;
mod world;

pub use dones::Dones;
pub use event::Event;
pub use laws::{runs_are_accepted, runs_are_sound};
pub use layout::lay_out;
pub use open_world_fault::OpenWorldFault;
pub use operation::Operation;
pub use played::Played;
pub use playing::play;
pub use recorded_lane::{
    MAX_CALLS, Noted, NotedRef, RecordFault, RecordPutFault, RecordedLane, RecordedParts,
    accepted_in_turn,
};
pub use reply::{Replies, Reply};
pub use stamps::Stamps;
pub use world::World;
