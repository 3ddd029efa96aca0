// The places of the standard streams.
use std::rt::Files;
use std::{fs, io};

/// Opens what holds nothing as often as there are standard streams. If one of these is closed, the next file that is
/// opened takes its place, and what is written to the stream would go to that file; now it goes nowhere.
pub fn taken_places<R: Files>(rt: &R) -> [io::Result<R::File>; 3] {
    [
        fs::open(rt, "/dev/null"),
        fs::open(rt, "/dev/null"),
        fs::open(rt, "/dev/null"),
    ]
}
