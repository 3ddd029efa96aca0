//! Tests of judging: the finder, histories as text, pictures, and the commands `judge`, `check` and `show`.
#![tactic(auto)]

#[cfg(test)]
mod tests;
