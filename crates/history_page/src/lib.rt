//! A history and its faults as one HTML file, which a browser draws to scale. Nothing of it is loaded from elsewhere.
#![tactic(auto)]

mod call_lines;
mod fixed;
mod guarding;
mod laws;
mod paging;

pub use laws::page_laws;
pub use paging::page;
