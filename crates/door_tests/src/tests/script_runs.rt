//! Whole scripts with the replies that they must get, readers and writers that fail, when replies go out, and command lines.
mod command_lines;
mod failing;
mod flash;
mod flushing;
mod outputs;
mod played;
mod replies;
mod spelling;
mod streams;
mod verdicts;
