//! The index of a log's live records: which of them belong to a set, and where each one lies.
#![tactic(auto)]

mod entries_of;
mod entry;
mod entry_test;
mod index;
mod index_full;
mod place;
mod rows;

pub use entries_of::EntriesOf;
pub use entry::Entry;
pub use entry_test::EntryTest;
pub use index::LogIndex;
pub use index_full::IndexFull;
pub use place::Place;
