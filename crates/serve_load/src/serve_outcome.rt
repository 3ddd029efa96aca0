// How a load ended, with what failed.
ghost use Rattle.std.specs.Prelude.{◌≡◌, None, Some};

use crate::advice::advise;
use crate::serve_cause::ServeCause;
use crate::serve_end::ServeEnd;
use load::{ServeLoad, SystemFault};
use std::io::Write;

/// How a load ended, and what failed, if the system did.
#[derive(Drop)]
pub(crate) struct ServeOutcome {
    pub(crate) end: ServeEnd,
    pub(crate) cause: Option<ServeCause>,
}

impl ServeOutcome {
    /// A load that ended so, with nothing more to tell.
    pub(crate) fn plain(end: ServeEnd) -> ServeOutcome
        ensures end { result.end ≡ end }
        ensures cause { result.cause ≡ None }
    {
        ServeOutcome { end, cause: None }
    }

    /// A load under which this of the system failed.
    pub(crate) fn system(fault: SystemFault) -> ServeOutcome
        ensures end { result.end ≡ ServeEnd.FileFault }
        ensures cause { result.cause ≡ Some (ServeCause.System fault) }
    {
        ServeOutcome::failed(ServeCause::System(fault))
    }

    /// A load of which this failed.
    pub(crate) fn failed(cause: ServeCause) -> ServeOutcome
        ensures end { result.end ≡ ServeEnd.FileFault }
        ensures cause { result.cause ≡ Some cause }
    {
        ServeOutcome {
            end: ServeEnd::FileFault,
            cause: Some(cause),
        }
    }

    /// A load in which hits were wrong, of which these lines tell.
    pub(crate) fn wrong(lines: String) -> ServeOutcome
        ensures end { result.end ≡ ServeEnd.WrongHit }
        ensures cause { result.cause ≡ Some (ServeCause.Hits lines) }
    {
        ServeOutcome {
            end: ServeEnd::WrongHit,
            cause: Some(ServeCause::Hits(lines)),
        }
    }

    /// Writes the line of the end, if it has one, then what failed, and what to do. What `err` refuses is not told.
    pub(crate) fn tell<E: Write>(&self, load: &ServeLoad, err: &mut E) {
        if let Some(message) = self.end.message() {
            let _ = write!(err, "{message}\n");
        }
        if let Some(cause) = &self.cause {
            cause.tell(err);
        }
        advise(err, load, self.end);
        let _ = err.flush();
    }
}
