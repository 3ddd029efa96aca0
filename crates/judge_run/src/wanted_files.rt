// The files that are wanted beside a report.
use trace_file::FileName;

/// The files that are wanted beside a report.
#[derive(Drop)]
pub(crate) struct WantedFiles<'a> {
    /// The file that an accepted history is written to as a trace.
    pub(crate) trace: Option<&'a FileName>,
    /// The file that a picture of why a history is rejected is drawn to.
    pub(crate) picture: Option<&'a FileName>,
    /// The file that what came of judging is written to as JUnit has it.
    pub(crate) junit: Option<&'a FileName>,
    /// The file that the page is written to.
    pub(crate) html: Option<&'a FileName>,
    /// The page, if one was made.
    pub(crate) page: Option<&'a [u8]>,
}
