//! The sets on flash: a page for each set, and in memory its filter, its strikes and its hits.
#![tactic(auto)]

mod laws;
mod located_in_set;
mod notes;
mod page;
mod rewritten;
mod set_read;
mod set_record;
mod set_table;
mod sets;

pub use laws::{
    forgotten_show_nothing, frames_keep_sets, readings_keep_current, readings_keep_sets,
    rewritings_keep_current, rewritings_keep_sets, strikes_keep_current, strikes_keep_sets,
};
pub use located_in_set::LocatedInSet;
pub use rewritten::Rewritten;
pub use set_read::SetRead;
pub use set_record::{SetRecord, SetRecords};
pub use sets::KSet;
