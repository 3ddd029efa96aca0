// What failed of a load, if the system or the cache did.
use load::SystemFault;
use service_cache::OpenServiceFault;
use std::io::Write;

/// What failed of a load.
#[derive(Drop)]
pub(crate) enum ServeCause {
    /// This of the system failed.
    System(SystemFault),
    /// The cache was not opened over the devices of its lanes, for this reason, which is not want of memory.
    Cache(OpenServiceFault),
    /// Hits were wrong, of which these lines tell.
    Hits(String),
}

impl ServeCause {
    /// Tells it, with the file that failed, if one did, and what to do; or each wrong hit. What `err` refuses is not told.
    pub(crate) fn tell<E: Write>(&self, err: &mut E) {
        match self {
            ServeCause::System(fault) => fault.tell(err),
            ServeCause::Cache(fault) => {
                let _ = write!(err, "the cache: {fault}\n");
            }
            ServeCause::Hits(lines) => {
                let _ = err.write_all(lines.as_bytes());
            }
        }
    }
}
