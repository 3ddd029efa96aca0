// What the command line asks for.
use judge_run::{CheckRequest, JudgeRequest, ShowRequest};
use load::{Load, ServeLoad};

/// What the words of the command line ask for.
#[derive(Drop)]
pub enum Line {
    /// The script of standard input is to be answered.
    Script,
    /// A trace is to be judged.
    Check(CheckRequest),
    /// A history that was written as text is to be judged.
    Judge(JudgeRequest),
    /// A trace is to be written as text.
    Show(ShowRequest),
    /// This load is to be run.
    Run(Load),
    /// This load of a cache that serves is to be run.
    Serve(ServeLoad),
}
