//! Tests of what records: lanes, the layout of their histories, the clock, and the cache that threads share, through public calls.
#![tactic(auto)]

#[cfg(test)]
mod cache;
#[cfg(test)]
mod lanes;
#[cfg(test)]
mod opening;
#[cfg(test)]
mod texts;
