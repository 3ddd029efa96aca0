// What of the system failed under a load.
use file_device::FileOpenFault;
use std::io;
use std::io::Write;

/// What of the system failed under a load.
#[derive(Drop)]
pub enum SystemFault {
    /// The file of a lane's device, of this name, was not opened, for this reason.
    Device(String, FileOpenFault),
    /// The output did not take what was told.
    Output,
    /// The system gave no random numbers, for this reason.
    Random(io::Error),
    /// The system did not tell the time, for this reason.
    Clock(io::Error),
}

impl SystemFault {
    /// Tells it, with the file that failed, if one did, and what to do. What `err` refuses is not told.
    pub fn tell<E: Write>(&self, err: &mut E) {
        let _ = match self {
            SystemFault::Device(path, fault) => write!(
                err,
                "{}: {fault}\nname a folder with --device that exists and that no other load uses\n",
                path.as_str()
            ),
            SystemFault::Output => write!(
                err,
                "standard output was not written whole: check that it is open and has room\n"
            ),
            SystemFault::Random(error) => write!(
                err,
                "no random numbers: {error}\nthey are the seed of the tables: try again\n"
            ),
            SystemFault::Clock(error) => write!(
                err,
                "no time: {error}\nthe load is timed by the clock: try again\n"
            ),
        };
    }
}
