// What the next step of a session needs.
ghost use Rattle.std.specs.Prelude.{◌≡◌, ◌≤◌, length};
ghost use Rattle.memcached_text.specs.Asked.{shown};
ghost use Rattle.memcached_text.specs.Steps.{event_shown};
ghost use Rattle.memcached_session.specs.Wanting.{is_closed, want_asked, want_alone, want_shown, want_of, WantAlone};

use crate::keyed::Keyed;
use crate::session::Session;
use crate::stats_kind::StatsKind;
use memcached_text::{ReaderState, StreamEvent, TextRequest};

/// What the next step of a session needs of its server.
#[derive(Clone, Copy)]
pub enum Want<'a> {
    /// The lane of this key: `lane_step`.
    Lane {
        /// The key.
        key: &'a [u8],
        /// Whether an item may get the turn's cas number. If not, the step is the same whatever that number is, so none need be drawn.
        gives_number: bool,
    },
    /// No lane: `step`, after what is needed was done.
    Alone(Need),
}

/// What a step that needs no lane needs of its server.
#[derive(Clone, Copy)]
pub enum Need {
    /// More bytes: nothing would be taken.
    More,
    /// Nothing.
    Step,
    /// All items are to be flushed, after so many seconds, 0 for at once; more than 30 days are seconds since 1970.
    FlushAll(u32),
    /// Lines of stats, which the step ends.
    Stats(StatsKind),
    /// The server is to say as much as this level has it.
    Verbosity(u32),
    /// The server is to end, after what is under way if graceful.
    Shutdown(bool),
    /// The client is to be closed, after what was answered is sent.
    Close,
}

/// What the next step of a session needs, by the bytes at hand, which begin after those that were taken.
pub fn what_is_wanted<'a>(session: &Session, bytes: &'a [u8]) -> Want<'a>
    ensures exact { want_shown result ≡ want_of session.now bytes.now }
    ensures few { want_shown result ≡ WantAlone Need.More → length bytes.now ≤ 4089 }
{
    let mut reader = session.reader();
    if is_closed(reader.state) {
        return Want::Alone(Need::Close);
    }
    let step = reader.take(bytes);
    match Keyed::of(&step.event) {
        Some(keyed) => Want::Lane {
            key: keyed.key(),
            gives_number: keyed.gives_number(),
        },
        None => Want::Alone(need_for(step.taken, &step.event)),
    }
}

// Whether the client is to be closed.
fn is_closed(state: ReaderState) -> bool
    ensures { result ≡ is_closed state }
{
    match state {
        ReaderState::Closed => true,
        ReaderState::Line => false,
        ReaderState::Keys { .. } => false,
        ReaderState::SkipLine => false,
        ReaderState::SkipData(_) => false,
    }
}

// What a step needs that asks nothing of a lane.
fn need_for(taken: usize, event: &StreamEvent<'_>) -> Need
    ensures { result ≡ want_alone taken (event_shown event.now) }
{
    match event {
        StreamEvent::More => { if taken == 0 { Need::More } else { Need::Step } }
        StreamEvent::Request(request) => need_of(request),
        StreamEvent::Data { .. } => Need::Step,
        StreamEvent::TooLarge(_) => Need::Step,
        StreamEvent::Key { .. } => Need::Step,
        StreamEvent::KeysEnd => Need::Step,
        StreamEvent::Refused(_) => Need::Step,
        StreamEvent::Foreign => Need::Step,
    }
}

// What a request needs that asks nothing of a lane.
fn need_of(request: &TextRequest<'_>) -> Need
    ensures { result ≡ want_asked (shown request.now) }
{
    match request {
        TextRequest::FlushAll { delay, .. } => Need::FlushAll(*delay),
        TextRequest::Stats { argument, further } => {
            Need::Stats(StatsKind::of(argument, further))
        }
        TextRequest::Verbosity { level, .. } => Need::Verbosity(*level),
        TextRequest::Shutdown { graceful } => Need::Shutdown(*graceful),
        TextRequest::Get { .. } => Need::Step,
        TextRequest::GetAndTouch { .. } => Need::Step,
        TextRequest::Store(_) => Need::Step,
        TextRequest::Delete { .. } => Need::Step,
        TextRequest::Delta(_) => Need::Step,
        TextRequest::Touch { .. } => Need::Step,
        TextRequest::Version => Need::Step,
        TextRequest::Quit => Need::Step,
        TextRequest::MetaNoop => Need::Step,
        TextRequest::Meta(_) => Need::Step,
    }
}
