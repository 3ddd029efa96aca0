//! Loads that are recorded and judged.
mod counting_device;
mod counting_policy;
mod counts;
mod devices;
mod ends;
mod operations;
mod options;
mod plans;
mod rounds;
mod runs;
mod seeds;
mod seen;
mod tiers;
