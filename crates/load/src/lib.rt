//! What a load asks of a cache: its settings, and the operations of its callers. Also the threads of any load (`Crew`), with a
//! watch that shows progress, what of the system can fail under one, and a histogram of how long calls took.
#![tactic(auto)]

mod cells;
mod crew;
mod histogram;
mod key_drawing;
mod load;
mod meanings;
mod numbers;
mod operations;
mod serve_load;
mod serve_operation;
mod setting;
mod size_setting;
mod system_fault;
mod times;
mod times_step;
mod turns;
mod watching;

pub use cells::LONGEST;
pub use crew::{Crew, run_crew};
pub use histogram::{Histogram, MOST_TIMES, Quantiles};
pub use key_drawing::ranks_of;
pub use load::Load;
pub use numbers::{load_with, served_with};
pub use operations::next_operation;
pub use serve_load::ServeLoad;
pub use serve_operation::ServeOperation;
pub use setting::{SERVE_SETTINGS, SETTINGS, SHAPE_SETTINGS, Setting};
pub use size_setting::SizeSetting;
pub use system_fault::SystemFault;
pub use trace_file::FileName;
pub use zipf::Ranks;
