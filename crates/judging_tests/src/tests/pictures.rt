// What no clause says: whole texts by hand, and a writer that fails.
mod many;
mod sentences;
mod texts;
