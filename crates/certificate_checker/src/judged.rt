// What a trace was judged to be.
ghost use Rattle.std.specs.Prelude.{◌≡◌};
ghost use Rattle.certificate_checker.specs.Judgements.{kind_of};

use crate::verdict::Verdict;

/// What the bytes of a reader were judged to be.
#[derive(Clone, Copy, PartialEq, Eq)]
pub enum Judged {
    /// A trace whose certificate spells an agreeing, lawful order of its history.
    Accepted,
    /// A trace whose certificate does not.
    Rejected,
    /// No trace.
    BadTrace,
}

impl Judged {
    /// What a trace with this verdict is judged to be.
    pub(crate) fn of(verdict: Verdict) -> Judged
        ensures { result ≡ kind_of verdict }
    {
        match verdict {
            Verdict::Accepted => Judged::Accepted,
            Verdict::Rejected(_) => Judged::Rejected,
        }
    }
}
