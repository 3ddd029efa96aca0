// A recorded call, before its end is drawn.
use record_pages::Key;
use std::fmt;
use trace_file::Act;

/// A recorded call whose end is not drawn yet.
#[derive(Drop)]
pub struct Noted {
    /// The number of the caller.
    pub caller: u16,
    /// The stamp at which the call started.
    pub start: u64,
    /// The stamp at which it was done, above its start.
    pub point: u64,
    /// The key that it was made for.
    pub key: Key,
    /// What it did.
    pub act: Act,
}

/// An error that holds such a call has to have a `Debug`. What it shows of the call is that it is one.
impl fmt::Debug for Noted {
    fn fmt<W: fmt::Write>(&self, f: &mut fmt::Formatter<W>) -> fmt::Result {
        f.write_str("Noted")
    }
}
