//! Tests of the records, of the small parts of the tiers, of the sizes of a cache, of traces and of the checker.
#![tactic(auto)]

#[cfg(test)]
mod tests;
