//! Tests of what serves: the book of all writes, lanes, lanes with seats, lanes for callers in C, the cache, and memcached's commands.
#![tactic(auto)]

#[cfg(test)]
mod tests;
