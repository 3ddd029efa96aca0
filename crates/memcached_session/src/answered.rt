// What a step answers.
ghost use Rattle.std.specs.Prelude.{◌≡◌};
ghost use Rattle.memcached_text.specs.Answers.{answer_text};
ghost use Rattle.memcached_session.specs.Unserving.{unserved_text};
ghost use Rattle.memcached_session.specs.Saying.{said, silent, said_shown, unless_quiet};

use crate::outcome::SessionOutcome;
use crate::unserved::Unserved;
use memcached_text::TextAnswer;

/// An answer of a session.
#[derive(Clone, Copy)]
pub(crate) enum SessionAnswer<'a> {
    /// One of the protocol.
    Text(TextAnswer<'a>),
    /// What is asked for is not served.
    Unserved(Unserved),
}

/// What a step answers, and how it went.
#[derive(Clone, Copy)]
pub(crate) struct Answered<'a> {
    /// The answer; `None` if none is wanted.
    pub(crate) answer: Option<SessionAnswer<'a>>,
    /// How it went.
    pub(crate) outcome: SessionOutcome,
}

impl<'a> Answered<'a> {
    /// No answer.
    pub(crate) fn silent(outcome: SessionOutcome) -> Answered<'a>
        ensures { said_shown result ≡ silent outcome }
    {
        Answered {
            answer: None,
            outcome,
        }
    }

    /// This answer.
    pub(crate) fn loud(answer: TextAnswer<'a>, outcome: SessionOutcome) -> Answered<'a>
        ensures { said_shown result ≡ said (answer_text answer.entry) outcome }
    {
        Answered {
            answer: Some(SessionAnswer::Text(answer)),
            outcome,
        }
    }

    /// What is asked for is not served.
    pub(crate) fn unserved(unserved: Unserved) -> Answered<'a>
        ensures { said_shown result ≡ said (unserved_text unserved) SessionOutcome.Refused }
    {
        Answered {
            answer: Some(SessionAnswer::Unserved(unserved)),
            outcome: SessionOutcome::Refused,
        }
    }

    /// This answer, unless the client wants none.
    pub(crate) fn unless_quiet(
        noreply: bool,
        answer: TextAnswer<'a>,
        outcome: SessionOutcome,
    ) -> Answered<'a>
        ensures { said_shown result ≡ unless_quiet noreply (answer_text answer.entry) outcome }
    {
        if noreply {
            Answered::silent(outcome)
        } else {
            Answered::loud(answer, outcome)
        }
    }
}
