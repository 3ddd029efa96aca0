//! Histories as text, one call a line: reading and writing.
#![tactic(auto)]

mod bad_line;
mod callers;
mod coding;
mod from_reader;
mod keeping;
mod key_word;
mod laws;
mod line_cause;
mod line_head;
mod line_kind;
mod line_taking;
mod lines;
mod pair_bytes;
mod read_text_fault;
mod reading;
mod share;
mod spelling;
mod text_fault;
mod text_history;
mod text_reader;
mod to_writer;
mod whole_text;
mod write_text_fault;

pub use bad_line::BadLine;
pub use callers::Callers;
pub use coding::word;
pub use from_reader::read_text;
pub use keeping::history_at;
pub use key_word::key_bytes;
pub use laws::{history_laws, reading_laws, word_laws};
pub use line_cause::LineCause;
pub use read_text_fault::ReadTextFault;
pub use reading::Reading;
pub use share::Share;
pub use text_fault::TextFault;
pub use text_history::TextHistory;
pub use text_reader::TextReader;
pub use to_writer::{act_text, end_text, write_text};
pub use whole_text::ReadText;
pub use write_text_fault::WriteTextFault;
