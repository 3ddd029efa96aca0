mod log;
mod reader;
mod sets;
mod store;
mod texts;
