// How the program ends that judged, checked or showed.
ghost use Rattle.std.specs.Prelude.{◌≡◌};
ghost use Rattle.judge_run.specs.Ends.{end_at_least, end_of_fault, end_of_outcome, status_of};

use crate::outcome::Outcome;
use crate::tell_fault::TellFault;

/// How the program ends that judged a history, checked a trace or showed one.
#[derive(Clone, Copy, PartialEq, Eq)]
pub enum JudgeEnd {
    /// All was done: the history was accepted, or the trace was shown.
    Done,
    /// The history was rejected.
    Rejected,
    /// The input was bad: a line, a trace, a key, or a call that has no text.
    BadInput,
    /// The history was accepted, and has fewer calls than it has to have.
    TooFew,
    /// Nothing was found wrong, and hits were not decided.
    Undecided,
    /// Memory was refused.
    OutOfMemory,
    /// The calls of a stream are more than can be counted.
    CountFull,
    /// A file, the input or the output failed.
    FileFault,
}

impl JudgeEnd {
    /// How the program ends that reported this outcome.
    pub fn of_outcome(outcome: &Outcome) -> JudgeEnd
        ensures { result ≡ end_of_outcome outcome.now }
    {
        match outcome {
            Outcome::Accepted(_) => JudgeEnd::Done,
            Outcome::Rejected(_) => JudgeEnd::Rejected,
            Outcome::Undecided(_) => JudgeEnd::Undecided,
            Outcome::BadLine(_) | Outcome::BadTrace(_) => JudgeEnd::BadInput,
        }
    }

    /// How the program ends that reported this outcome, if an accepted history has to have so many calls.
    pub fn at_least(least: usize, outcome: &Outcome) -> JudgeEnd
        ensures { result ≡ end_at_least least outcome.now }
    {
        match outcome {
            Outcome::Accepted(acceptance) => {
                if acceptance.recorded < least {
                    JudgeEnd::TooFew
                } else {
                    JudgeEnd::Done
                }
            }
            Outcome::Rejected(_) => JudgeEnd::Rejected,
            Outcome::Undecided(_) => JudgeEnd::Undecided,
            Outcome::BadLine(_) | Outcome::BadTrace(_) => JudgeEnd::BadInput,
        }
    }

    /// How the program ends that did not report an outcome, or not whole.
    pub fn of_fault(fault: TellFault) -> JudgeEnd
        ensures { result ≡ end_of_fault fault }
    {
        match fault {
            TellFault::OutOfMemory => JudgeEnd::OutOfMemory,
            TellFault::CountFull => JudgeEnd::CountFull,
            TellFault::ReadFault | TellFault::WriteFault => JudgeEnd::FileFault,
        }
    }

    /// The exit status.
    pub fn status(self) -> u8
        ensures { result ≡ status_of self }
    {
        match self {
            JudgeEnd::Done => 0,
            JudgeEnd::Rejected => 1,
            JudgeEnd::BadInput | JudgeEnd::TooFew => 2,
            JudgeEnd::OutOfMemory | JudgeEnd::CountFull | JudgeEnd::FileFault => 3,
            JudgeEnd::Undecided => 4,
        }
    }
}
