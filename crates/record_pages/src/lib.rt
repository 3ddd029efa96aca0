//! Keys, values, records, pages, the answers of a cache and its configuration: the words that all layers share. Also
//! numbers in digits, lists of items, the room for a value, and laws of sets of numbers that are bits of words.
#![tactic(auto)]

mod answer;
mod buffer;
mod bytes_out;
mod config;
mod digits;
mod encode;
mod field;
mod form;
mod front;
mod item_list;
mod key;
mod layout;
mod limits;
mod log_page;
mod log_page_writer;
mod looked;
mod miss_cause;
mod object;
mod page_body;
mod prediction;
mod pushed;
mod put_fault;
mod record;
mod record_ref;
mod records;
mod set_page;
mod set_page_writer;
mod slot_record;
mod tier;
mod timed_value;
mod value;

pub use answer::Answer;
pub use buffer::ValueBuffer;
pub use config::{Config, ConfigFault};
pub use digits::{MAX_DIGITS, are_digits, digits_value};
pub use encode::{encode_log_page, encode_set_page, fits};
pub use field::Field;
pub use item_list::ItemList;
pub use key::{Key, KeyFault};
pub use layout::Layout;
pub use limits::{
    MAX_ADMIT, MAX_ENTRIES, MAX_LANES, MAX_MEMORY, MAX_SEGMENT_PAGES, MAX_SEGMENTS, MAX_SETS,
    MAX_THRESHOLD, MIN_SEGMENTS,
};
pub use log_page::LogPage;
pub use log_page_writer::LogPageWriter;
pub use looked::Looked;
pub use miss_cause::MissCause;
pub use object::{MAX_LOG_RECORDS, MAX_SET_RECORDS, PAGE_OVERHEAD, RECORD_OVERHEAD, is_too_large};
pub use prediction::Prediction;
pub use pushed::Pushed;
pub use put_fault::PutFault;
pub use record::Record;
pub use record_ref::RecordRef;
pub use records::Records;
pub use set_page::SetPage;
pub use set_page_writer::SetPageWriter;
pub use slot_record::SlotRecord;
pub use tier::Tier;
pub use timed_value::{NEVER, TimedValue, is_live};
pub use value::{Value, ValueFault};
