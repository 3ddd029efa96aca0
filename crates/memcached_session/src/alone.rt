// What a step answers that asks nothing of a lane.
ghost use Rattle.std.specs.Prelude.{◌≡◌};
ghost use Rattle.memcached_text.specs.Asked.{shown, meta_shown};
ghost use Rattle.memcached_text.specs.Steps.{event_shown};
ghost use Rattle.memcached_session.specs.Saying.{said_shown};
ghost use Rattle.memcached_session.specs.Unserving.{unserved_in};
ghost use Rattle.memcached_session.specs.Alone.{stats_end, flush_said, shutdown_said, request_said, large_said, alone_said, unserved_said};

use crate::answered::Answered;
use crate::outcome::SessionOutcome;
use crate::stats_kind::StatsKind;
use crate::unserved::Unserved;
use memcached_text::{FixedReply, LineError, MetaRequest, StreamEvent, TextAnswer, TextRequest};

/// What `version` answers: the version of memcached whose protocol is served.
const VERSION: &[u8] = b"1.6.18";

/// What a step answers that asks nothing of a lane, by whether the server refuses what it asks.
pub(crate) fn answer_alone<'a>(refuses: bool, event: &StreamEvent<'_>) -> Answered<'a>
    ensures { said_shown result ≡ alone_said refuses (event_shown event.now) }
{
    match event {
        StreamEvent::More => Answered::silent(SessionOutcome::Nothing),
        StreamEvent::Request(request) => to_request(refuses, request),
        StreamEvent::Data { request, .. } => to_request(refuses, request),
        StreamEvent::TooLarge(request) => to_large(request),
        StreamEvent::Key { .. } => Answered::silent(SessionOutcome::Nothing),
        StreamEvent::KeysEnd => plain(FixedReply::End, SessionOutcome::Nothing),
        StreamEvent::Refused(refusal) => Answered::unless_quiet(
            refusal.noreply,
            TextAnswer::Refused(refusal.fault),
            SessionOutcome::Refused,
        ),
        StreamEvent::Foreign => Answered::silent(SessionOutcome::Nothing),
    }
}

ghost use Rattle.memcached_session.specs.Alone.{reply_line};
ghost use Rattle.memcached_session.specs.Saying.{said};

// A line of fixed words.
fn plain<'a>(reply: FixedReply, outcome: SessionOutcome) -> Answered<'a>
    ensures { said_shown result ≡ said (reply_line reply) outcome }
{
    Answered::loud(TextAnswer::Reply(reply), outcome)
}

// What is answered to a request.
fn to_request<'a>(refuses: bool, request: &TextRequest<'_>) -> Answered<'a>
    ensures { said_shown result ≡ request_said refuses (shown request.now) }
{
    match request {
        TextRequest::FlushAll { noreply, .. } => to_flush(refuses, *noreply),
        TextRequest::Stats { argument, further } => to_stats(StatsKind::of(argument, further)),
        TextRequest::Version => Answered::loud(
            TextAnswer::Version(VERSION),
            SessionOutcome::Nothing,
        ),
        TextRequest::Verbosity { noreply, .. } => Answered::unless_quiet(
            *noreply,
            TextAnswer::Reply(FixedReply::Ok),
            SessionOutcome::Nothing,
        ),
        TextRequest::Shutdown { .. } => to_shutdown(refuses),
        TextRequest::MetaNoop => plain(FixedReply::MetaNoop, SessionOutcome::Nothing),
        TextRequest::Meta(meta) => to_unserved(meta),
        TextRequest::Get { .. } => Answered::silent(SessionOutcome::Nothing),
        TextRequest::GetAndTouch { .. } => Answered::silent(SessionOutcome::Nothing),
        TextRequest::Quit => Answered::silent(SessionOutcome::Nothing),
        TextRequest::Store(_) => Answered::silent(SessionOutcome::Nothing),
        TextRequest::Delete { .. } => Answered::silent(SessionOutcome::Nothing),
        TextRequest::Delta(_) => Answered::silent(SessionOutcome::Nothing),
        TextRequest::Touch { .. } => Answered::silent(SessionOutcome::Nothing),
    }
}

// What is answered to a request whose data block is too large, if the key stays as it is.
fn to_large<'a>(request: &TextRequest<'_>) -> Answered<'a>
    ensures { said_shown result ≡ large_said (shown request.now) }
{
    let answer = TextAnswer::Reply(FixedReply::TooLarge);
    match request {
        TextRequest::Store(store) => {
            Answered::unless_quiet(store.noreply, answer, SessionOutcome::TooLarge)
        }
        TextRequest::Meta(meta) => to_unserved(meta),
        _ => Answered::silent(SessionOutcome::Nothing),
    }
}

// What is answered to a flush that the server refuses or did.
fn to_flush<'a>(refuses: bool, noreply: bool) -> Answered<'a>
    ensures { said_shown result ≡ flush_said refuses noreply }
{
    if refuses {
        Answered::unless_quiet(
            noreply,
            TextAnswer::Reply(FixedReply::FlushNotAllowed),
            SessionOutcome::Refused,
        )
    } else {
        Answered::unless_quiet(
            noreply,
            TextAnswer::Reply(FixedReply::Ok),
            SessionOutcome::Nothing,
        )
    }
}

// What ends the lines of stats.
fn to_stats<'a>(kind: StatsKind) -> Answered<'a>
    ensures { said_shown result ≡ stats_end kind }
{
    match kind {
        StatsKind::General => plain(FixedReply::End, SessionOutcome::Nothing),
        StatsKind::Settings => plain(FixedReply::End, SessionOutcome::Nothing),
        StatsKind::Conns => plain(FixedReply::End, SessionOutcome::Nothing),
        StatsKind::Items => plain(FixedReply::End, SessionOutcome::Nothing),
        StatsKind::Slabs => plain(FixedReply::End, SessionOutcome::Nothing),
        StatsKind::Sizes => plain(FixedReply::End, SessionOutcome::Nothing),
        StatsKind::Reset => plain(FixedReply::Reset, SessionOutcome::Nothing),
        StatsKind::Dump => plain(FixedReply::End, SessionOutcome::Nothing),
        StatsKind::Detail => plain(FixedReply::Ok, SessionOutcome::Nothing),
        StatsKind::WrongDetail => Answered::loud(
            TextAnswer::Refused(LineError::BadDetail),
            SessionOutcome::Refused,
        ),
        StatsKind::Unknown => Answered::loud(
            TextAnswer::Refused(LineError::Unknown),
            SessionOutcome::Refused,
        ),
    }
}

// What is answered to a request that the server end.
fn to_shutdown<'a>(refuses: bool) -> Answered<'a>
    ensures { said_shown result ≡ shutdown_said refuses }
{
    if refuses {
        plain(FixedReply::ShutdownNotEnabled, SessionOutcome::Refused)
    } else {
        Answered::silent(SessionOutcome::Nothing)
    }
}

// What is answered to a meta command that is not served.
fn to_unserved<'a>(meta: &MetaRequest<'_>) -> Answered<'a>
    ensures { said_shown result ≡ unserved_said (unserved_in (meta_shown meta.now)) }
{
    match Unserved::of(meta) {
        Some(unserved) => Answered::unserved(unserved),
        None => Answered::silent(SessionOutcome::Nothing),
    }
}
