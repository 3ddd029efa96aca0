// What `judge`, `check` and `show` are asked to do: their three requests.
use crate::detail::Detail;
use crate::scope::Scope;
use trace_file::FileName;

/// The history that is to be judged, and what is wanted beside its verdict.
#[derive(Drop)]
pub struct JudgeRequest {
    /// The file of the text; `-` is the standard input.
    pub file: FileName,
    /// Further files, each of which is judged by itself after that one. A trace, a picture, a JUnit file or a page would then be written for
    /// each, so that only the last would stay.
    pub others: Vec<FileName>,
    /// What is reported of a rejected history beside its verdict.
    pub detail: Detail,
    /// Whether the answer is a JSON object and not lines.
    pub json: bool,
    /// The file that a picture of why it is rejected is drawn to.
    pub picture: Option<FileName>,
    /// The file that an accepted history is written to, as a trace with the certificate that was found.
    pub trace: Option<FileName>,
    /// The file that what came of judging is written to, as a JUnit file.
    pub junit: Option<FileName>,
    /// The file that a page of the history is written to, if one is wanted beside the verdict.
    pub html: Option<FileName>,
    /// How many calls an accepted history has to have.
    pub at_least: u64,
    /// What of the calls is judged. What is drawn and what is written as a trace are the calls as they are judged.
    pub scope: Scope,
}

/// The trace that is to be judged, and what is wanted beside its verdict.
#[derive(Drop)]
pub struct CheckRequest {
    /// The file of the trace.
    pub file: FileName,
    /// Whether it is said why the trace is rejected.
    pub explain: bool,
    /// Whether the answer is a JSON object and not lines.
    pub json: bool,
    /// The file that a picture of why it is rejected is drawn to.
    pub picture: Option<FileName>,
}

/// The trace that is to be written as text.
#[derive(Drop)]
pub struct ShowRequest {
    /// The file of the trace.
    pub file: FileName,
    /// The key whose calls alone are written, as the text spells it.
    pub key: Option<String>,
}
