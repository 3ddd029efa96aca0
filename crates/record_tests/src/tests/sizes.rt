//! Sizes against numbers that were worked out by hand.
mod accepted;
mod kept;
mod refused;
mod rows;
mod written;
