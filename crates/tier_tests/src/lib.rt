//! Tests of the tiers on flash, the sets and the log, and of the store of all tiers.
#![tactic(auto)]

#[cfg(test)]
mod tests;
