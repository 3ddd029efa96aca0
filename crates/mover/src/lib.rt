//! The store of a lane: memory, the log and the sets, over one device.
#![tactic(auto)]

mod aborted;
mod answer_kind;
mod begin;
mod committed;
mod copy_fate;
mod fitting;
mod flight;
mod flights;
mod laws;
mod located;
mod mark;
mod marks;
mod memory_answer;
mod moved_whole;
mod moving;
mod open_fault;
mod store;

pub use aborted::Aborted;
pub use answer_kind::AnswerKind;
pub use begin::Begin;
pub use committed::Committed;
pub use copy_fate::CopyFate;
pub use laws::{
    abort_shows, begin_shows, commit_shows, flush_shows, get_finds_last, get_shows,
    opening_shows_nothing, put_back_shows, put_shows, removal_shows, stores_are_in_order,
    whole_move_shows,
};
pub use moved_whole::MovedWhole;
pub use open_fault::OpenFault;
pub use store::{Store, strikes_for_all};
