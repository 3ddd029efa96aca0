// A database.
use std::sync::{Mutex, Wait};

/// How many rows it has.
pub const ROWS: usize = 256;

/// A database, in memory: the version of each row. A write makes the next one.
#[derive(Drop)]
pub struct Database {
    versions: Mutex<[u64; ROWS]>,
}

impl Database {
    /// Rows of which each has version 0.
    pub fn new() -> Database {
        Database {
            versions: Mutex::new([0; ROWS]),
        }
    }

    /// Reads a row.
    pub fn read<R: Wait>(&self, rt: &R, row: u8) -> u64 {
        let versions = self.versions.lock(rt);
        versions[row as usize]
    }

    /// Writes a row.
    pub fn write<R: Wait>(&self, rt: &R, row: u8) {
        let mut versions = self.versions.lock(rt);
        versions[row as usize] = versions[row as usize].wrapping_add(1);
    }
}
