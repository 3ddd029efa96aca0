//! Loads of a cache that serves.
mod bringing;
mod caught;
mod ends;
mod limits;
mod loads;
mod numbers;
mod operations;
mod options;
mod over;
mod ranks;
mod reports;
mod seeds;
mod stepping;
mod times;
mod working;
mod wrong;
