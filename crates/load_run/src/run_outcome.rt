// How a run ended, with what failed.
ghost use Rattle.std.specs.Prelude.{◌≡◌};
ghost use Rattle.load_run.specs.Ends.{IsRefusal, end_of_finish, end_of_verdict};

use crate::run_cause::RunCause;
use crate::run_end::RunEnd;
use crate::summary::Summary;
use load::SystemFault;
use shared_cache::FinishFault;

/// How a run ended, and what failed, if a file, the output or the system did.
#[derive(Drop)]
pub struct RunOutcome {
    pub end: RunEnd,
    pub cause: Option<RunCause>,
}

impl RunOutcome {
    /// A run that ended so, with nothing more to tell.
    pub fn plain(end: RunEnd) -> RunOutcome
        ensures { result.end ≡ end }
    {
        RunOutcome { end, cause: None }
    }

    /// A run that was judged, of which this is to be told. If callers stopped, it keeps how many.
    pub fn judged(summary: &Summary) -> RunOutcome
        ensures { result.end ≡ end_of_verdict summary.now.verdict summary.now.stopped }
    {
        RunOutcome {
            end: RunEnd::of_verdict(summary.verdict, summary.stopped),
            cause: Some(RunCause::Stopped(summary.stopped)),
        }
    }

    /// A run whose cache was not finished, for this fault.
    pub fn unfinished(fault: FinishFault) -> RunOutcome
        ensures end { result.end ≡ end_of_finish fault }
        ensures refusal { IsRefusal result.end }
    {
        RunOutcome {
            end: RunEnd::of_finish(fault),
            cause: Some(RunCause::Unfinished(fault)),
        }
    }

    /// A run under which this of the system failed.
    pub fn system(fault: SystemFault) -> RunOutcome
        ensures { result.end ≡ RunEnd.FileFault }
    {
        RunOutcome::failed(RunCause::System(fault))
    }

    /// A run of which this failed.
    pub fn failed(cause: RunCause) -> RunOutcome
        ensures { result.end ≡ RunEnd.FileFault }
    {
        RunOutcome {
            end: RunEnd::FileFault,
            cause: Some(cause),
        }
    }
}
