//! The log on flash: segments of pages, of which one is filled and one may be flushed from memory, and the oldest lie
//! on a device.
#![tactic(auto)]

mod answer_laws;
mod appended;
mod buffer;
mod fetched;
mod flushed;
mod gathered;
mod laws;
mod located_in_log;
mod log;
mod log_usage;
mod oldest;
mod readmitted;
mod record_answer;
mod segment_laws;
mod set_taken;
mod sources;
mod taken_record;

pub use answer_laws::{
    count_tells_live, full_where_none_takes, look_finds_newest, oldest_tells_first,
    taking_gives_last,
};
pub use appended::Appended;
pub use flushed::Flushed;
pub use laws::{
    append_keeps_places, flush_keeps_places, frames_keep_log, freeing_keeps_places,
    list_keeps_places, live_are_as_many, names_tell_numbers,
};
pub use located_in_log::LocatedInLog;
pub use log::{KLog, MAX_TAKEN};
pub use log_usage::LogUsage;
pub use oldest::Oldest;
pub use readmitted::Readmitted;
pub use segment_laws::{
    appends_put_last, entry_dies, freeing_takes_oldest, lost_pages_die, pages_are_done,
    sealing_flushes, segments_tell_live, strikes_kill, taken_die,
};
pub use set_taken::SetTaken;
pub use taken_record::{TakenRecord, TakenRecords};
