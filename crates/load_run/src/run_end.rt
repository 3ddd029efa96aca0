// How a run ends.
ghost use Rattle.std.specs.Prelude.{◌≡◌, ℕ, OnOk};
ghost use Rattle.std.specs.Io.KnownBytes.{Appends};
ghost use Rattle.std.specs.Option.{option_map};
ghost use Rattle.load_run.specs.Ends.{end_of_verdict, end_of_finish, status_of, message_of, line_of};

use certificate_checker::Verdict;
use shared_cache::FinishFault;
use std::io;
use std::io::Write;

/// How a run ended.
#[derive(Clone, Copy, PartialEq, Eq)]
pub enum RunEnd {
    /// Its history was accepted, and each caller made all its calls.
    Accepted,
    /// Its history was rejected.
    Rejected,
    /// Its history was accepted, and a caller stopped at a refusal.
    Stopped,
    /// Gets and removes exceed 100 per cent, and nothing was opened.
    SharesExceed,
    /// Memory was refused, or a thread, outside a caller.
    OutOfMemory,
    /// The file of the trace or the output failed.
    FileFault,
    /// The cache was not finished.
    FinishFault,
}

impl RunEnd {
    /// How a run ended that was judged so and of whose callers this many stopped at a refusal.
    pub fn of_verdict(verdict: Verdict, stopped: usize) -> RunEnd
        ensures { result ≡ end_of_verdict verdict stopped }
    {
        match verdict {
            Verdict::Rejected(_) => RunEnd::Rejected,
            Verdict::Accepted => {
                if stopped == 0 {
                    RunEnd::Accepted
                } else {
                    RunEnd::Stopped
                }
            }
        }
    }

    /// How a run ended whose cache was not finished.
    pub(crate) fn of_finish(fault: FinishFault) -> RunEnd
        ensures { result ≡ end_of_finish fault }
    {
        match fault {
            FinishFault::OutOfMemory => RunEnd::OutOfMemory,
            _ => RunEnd::FinishFault,
        }
    }

    /// The status that the program ends with.
    pub fn status(self) -> u8
        ensures { result ≡ status_of self }
    {
        match self {
            RunEnd::Accepted => 0,
            RunEnd::Rejected => 1,
            RunEnd::SharesExceed => 2,
            RunEnd::Stopped | RunEnd::OutOfMemory | RunEnd::FileFault | RunEnd::FinishFault => 3,
        }
    }

    /// The line that it writes to standard error, if it writes one.
    pub fn message(self) -> Option<&'static str>
        ensures { option_map (λ m. m.now) result ≡ message_of self }
    {
        match self {
            RunEnd::Accepted | RunEnd::Rejected | RunEnd::Stopped => None,
            RunEnd::SharesExceed => Some("gets and removes exceed 100"),
            RunEnd::OutOfMemory => Some("out of memory"),
            RunEnd::FileFault => Some("file fault"),
            RunEnd::FinishFault => Some("finish fault"),
        }
    }

    /// Writes that line with its line feed, or nothing if there is none. A fault is the first that `err` has, and what it
    /// took before that stays.
    pub fn tell<E: Write>(self, err: &mut E) -> io::Result<()>
        ensures { OnOk result (Appends (E.contents err.old) (E.contents err.new) (line_of self)) }
    {
        let Some(message) = self.message() else {
            return Ok(());
        };
        err.write_all(message.as_bytes())?;
        match err.write_all(b"\n") {
            Ok(()) => Ok(()),
            Err(error) => Err(error),
        }
    }
}
