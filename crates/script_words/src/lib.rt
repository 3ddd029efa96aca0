//! The lines, words and numbers of a script, and what its lines spell: a configuration, and commands.
#![tactic(auto)]

mod command;
mod config_line;
mod line_read;
mod read_ahead;
mod read_line_fault;
mod words;

pub use command::{Command, parse_command};
pub use config_line::parse_config;
pub use line_read::LineRead;
pub use read_ahead::{MAX_LINE_LEN, ReadAhead};
pub use read_line_fault::ReadLineFault;
pub use words::{MAX_WORDS, time, words_in};
