// What is answered to a meta command.
ghost use Rattle.std.specs.Prelude.{◌≡◌, ◌≤◌, length};
ghost use Rattle.record_pages.specs.Bounded.{IsKey};
ghost use Rattle.memcached_text.specs.Asked.{meta_shown};
ghost use Rattle.memcached_text.specs.Limits.{AreFlags};
ghost use Rattle.memcached_session.specs.Fitting.{IsSaidWithin, IsWentWithin};
ghost use Rattle.memcached_session.specs.Saying.{said_shown};
ghost use Rattle.memcached_session.specs.MetaSaying.{IsTextOf, meta_reply_shown, bare, unless_q};

use crate::answered::Answered;
use crate::meta_reading::has_flag;
use crate::outcome::SessionOutcome;
use memcached_text::{
    FixedReply, MetaAnswer, MetaFields, MetaMarks, MetaRequest, MetaStatus, TextAnswer, Ttl,
};

/// What of an item can be returned.
#[derive(Clone, Copy)]
pub(crate) struct Returned {
    /// Its cas unique.
    pub(crate) cas: Option<u64>,
    /// The number that the client keeps with it.
    pub(crate) flags: Option<u32>,
    /// How many bytes its value has.
    pub(crate) size: Option<u32>,
    /// How long it lives.
    pub(crate) ttl: Option<Ttl>,
}

impl Returned {
    /// Nothing.
    pub(crate) const fn nothing() -> Returned
        ensures { result ≡ returns_nothing }
    {
        Returned {
            cas: None,
            flags: None,
            size: None,
            ttl: None,
        }
    }

    /// The cas unique.
    pub(crate) fn only_cas(cas: u64) -> Returned
        ensures { result ≡ returns_cas cas }
    {
        Returned {
            cas: Some(cas),
            ..Returned::nothing()
        }
    }
}

ghost use Rattle.memcached_session.specs.MetaSaying.{returns_nothing, returns_cas, no_marks};

/// Nothing is said unasked.
pub(crate) fn no_marks() -> MetaMarks
    ensures { result ≡ no_marks }
{
    MetaMarks {
        is_awaited: false,
        is_stale: false,
        has_won: false,
    }
}

/// An answer to a meta command: how it went, what of the item can be returned, and what is said unasked.
#[derive(Clone, Copy)]
pub(crate) struct MetaShown<'a> {
    pub(crate) status: MetaStatus<'a>,
    pub(crate) returned: Returned,
    pub(crate) marks: MetaMarks,
}

/// What is answered to a meta command.
#[derive(Clone, Copy)]
pub(crate) enum MetaReply<'a> {
    /// Nothing.
    Quiet,
    /// A fixed line.
    Line(FixedReply),
    /// An answer.
    Shown(MetaShown<'a>),
}

impl<'a> MetaReply<'a> {
    /// An answer with no item.
    pub(crate) fn bare(status: MetaStatus<'a>) -> MetaReply<'a>
        ensures { meta_reply_shown result ≡ bare (went_shown status.entry) }
    {
        MetaReply::Shown(MetaShown {
            status,
            returned: Returned::nothing(),
            marks: no_marks(),
        })
    }

    /// The same, unless the flag `q` keeps it back.
    pub(crate) fn unless_q(self, request: &MetaRequest<'_>) -> MetaReply<'a>
        ensures { meta_reply_shown result ≡ unless_q request.now.flags.now (meta_reply_shown self.entry) }
    {
        if has_flag(request, b'q') {
            MetaReply::Quiet
        } else {
            self
        }
    }

    /// The answer to a request, with how it went.
    pub(crate) fn answered(self, request: &MetaRequest<'a>, outcome: SessionOutcome) -> Answered<'a>
        requires key { IsKey request.now.key.now }
        requires flags { AreFlags request.now.flags.now }
        requires within { IsSaidWithin (meta_reply_shown self) }
        ensures text { IsTextOf (meta_shown request.now) (meta_reply_shown self.entry) ((said_shown result).text) }
        ensures outcome { (said_shown result).outcome ≡ outcome }
        ensures few { length ((said_shown result).text) ≤ 2448 }
    {
        match self {
            MetaReply::Quiet => Answered::silent(outcome),
            MetaReply::Line(reply) => Answered::loud(TextAnswer::Reply(reply), outcome),
            MetaReply::Shown(shown) => shown.answered(request, outcome),
        }
    }
}

ghost use Rattle.memcached_text.specs.Answers.{meta_text};
ghost use Rattle.memcached_session.specs.MetaSaying.{IsMetaText, shown_of, went_shown};

impl<'a> MetaShown<'a> {
    // The answer to a request, with how it went.
    fn answered(self, request: &MetaRequest<'a>, outcome: SessionOutcome) -> Answered<'a>
        requires key { IsKey request.now.key.now }
        requires flags { AreFlags request.now.flags.now }
        requires within { IsWentWithin (went_shown self.status) }
        ensures text { IsMetaText (meta_shown request.now) (shown_of self.entry) ((said_shown result).text) }
        ensures outcome { (said_shown result).outcome ≡ outcome }
        ensures few { length ((said_shown result).text) ≤ 2448 }
    {
        let answer = self.answer(request);
        Answered::loud(TextAnswer::Meta(answer), outcome)
    }

    // The answer to a request.
    fn answer(self, request: &MetaRequest<'a>) -> MetaAnswer<'a>
        requires key { IsKey request.now.key.now }
        requires flags { AreFlags request.now.flags.now }
        requires within { IsWentWithin (went_shown self.status) }
        ensures text { IsMetaText (meta_shown request.now) (shown_of self.entry) (meta_text result) }
        ensures few { length (meta_text result) ≤ 2448 }
    {
        let fields = MetaFields {
            key: request.key,
            is_base64: false,
            cas: self.returned.cas,
            flags: self.returned.flags,
            size: self.returned.size,
            ttl: self.returned.ttl,
            was_hit: None,
            last_used: None,
        };
        MetaAnswer {
            status: self.status,
            flags: request.flags,
            fields,
            marks: self.marks,
        }
    }
}
