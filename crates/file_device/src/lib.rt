//! A device of pages in a file, and the devices of a number of lanes, in files of a folder or in memory.
#![tactic(auto)]

mod file;
mod file_open_fault;
mod in_files;
mod in_memory;
mod lane_file_fault;
mod lane_places;
mod opening;
mod path;

pub use file::FileDevice;
pub use file_open_fault::FileOpenFault;
pub use in_files::lanes_in_files;
pub use in_memory::lanes_in_memory;
pub use lane_file_fault::LaneFileFault;
pub use lane_places::taken_places;
pub use path::lane_path;
