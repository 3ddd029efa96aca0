//! Tests of the program: of scripts, of loads of caches that record and of those that serve, and of the command line.
#![tactic(auto)]

#[cfg(test)]
mod tests;
