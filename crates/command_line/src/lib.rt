//! What the words of the command line ask for, what is done for them, and how the program ends.
#![tactic(auto)]

mod answering;
mod asked_file;
mod asked_judging;
mod asked_load;
mod asking;
mod ending;
mod help;
mod line;
mod line_fault;
mod parse;
mod program;
mod program_end;
mod telling;

pub use answering::{answer_script, tell_help};
pub use asking::asked;
pub use ending::Ending;
pub use line::Line;
pub use line_fault::LineFault;
pub use parse::{no_text, parse_line};
pub use program_end::ProgramEnd;
