// Requests from bytes that come in pieces.
ghost use Rattle.std.specs.Prelude.{◌≡◌, ◌+◌, ◌-◌, ◌<◌, ◌≤◌, ◌++◌, ◌&&◌, ◌||◌, not, false, nat_lt, nat_le, ◌==◌, List, ℕ, length, take, drop, position, slice_index_or, IfSome, Some, None};
ghost use Rattle.memcached_text.specs.Asked.{shown, shown_or_refused};
ghost use Rattle.memcached_text.specs.Requests.{request_of};
ghost use Rattle.memcached_text.specs.Words.{after_word, is_key};
ghost use Rattle.memcached_text.specs.Steps.{Outcome, outcome, nothing, is_feed, is_end, without_return, block_step, keys_step, meta_step, asked_step, whole_step, refused_step, after_refusal, long_step, line_by, line_step, key_or, last_key, key_by, key_step, too_long, passing, decided, step_of, events_of, given_list, is_more, event_shown, TellMore, TellRequest, TellRefused};
ghost use Rattle.memcached_text.specs.Limits.{GivesFlags};
ghost use Rattle.memcached_text.specs.StepsShown.{outcome_shown, passing_shown};

use crate::exptime::Exptime;
use crate::line_error::LineError;
use crate::line_refusal::{LineRefusal, RefusedBlock};
use crate::parsing::{is_http, parse};
use crate::reader_state::ReaderState;
use crate::stream_event::{StreamEvent, StreamStep};
use crate::text_request::TextRequest;
use crate::verb::MetaCommand;
use crate::words::{MAX_KEY_LEN, after_word, is_key, spaces};

/// The most bytes of a line that has no keys to be given one by one, without its line feed.
pub const MAX_LINE_LEN: usize = 2048;

/// The first byte of a request of memcached's binary protocol.
const BINARY: u8 = 0x80;

/// What bytes give, how many are taken, and where the reader stands after them.
#[derive(Clone, Copy)]
pub(crate) struct Given<'a> {
    taken: usize,
    event: StreamEvent<'a>,
    state: ReaderState,
}

/// How many bytes are passed over, and where the reader stands after them.
#[derive(Clone, Copy)]
pub(crate) struct Passed {
    count: usize,
    state: ReaderState,
}

/// The place of the first line feed.
fn feed_at(bytes: &[u8]) -> Option<usize>
    ensures place { result ≡ position is_feed bytes.now }
    ensures within { IfSome result (λ at. at < length bytes.now) }
{
    for at in 0..bytes.len() {
        if bytes[at] == b'\n' {
            return Some(at);
        }
    }
    None
}

/// The place of the first space or line feed.
fn end_at(bytes: &[u8]) -> Option<usize>
    ensures place { result ≡ position is_end bytes.now }
    ensures within { IfSome result (λ at. at < length bytes.now) }
{
    for at in 0..bytes.len() {
        if bytes[at] == b' ' || bytes[at] == b'\n' {
            return Some(at);
        }
    }
    None
}

/// A line without the carriage return at its end.
fn without_return<'a>(line: &'a [u8]) -> &'a [u8]
    ensures { result.now ≡ without_return line.now }
{
    if !line.is_empty() && line[line.len() - 1] == b'\r' {
        &line[..line.len() - 1]
    } else {
        line
    }
}

/// The first bytes, at most so many.
fn front<'a>(bytes: &'a [u8], most: usize) -> &'a [u8]
    ensures value { result.now ≡ take most bytes.now }
    ensures within { length result.now ≤ length bytes.now }
    ensures few { length result.now ≤ most }
    ensures full { most ≤ length bytes.now → length result.now ≡ most }
{
    if bytes.len() <= most {
        bytes
    } else {
        &bytes[..most]
    }
}

/// Nothing is whole.
fn nothing<'a>(state: ReaderState) -> Given<'a>
    ensures { outcome_shown result ≡ nothing state }
{
    Given {
        taken: 0,
        event: StreamEvent::More,
        state,
    }
}

/// A request that its line ends.
fn plain_given<'a>(past: usize, request: TextRequest<'a>) -> Given<'a>
    ensures { outcome_shown result ≡ outcome past (TellRequest (shown request.entry)) ReaderState.Line }
{
    Given {
        taken: past,
        event: StreamEvent::Request(request),
        state: ReaderState::Line,
    }
}

/// A request whose keys are next.
fn keys_given<'a>(
    past: usize,
    request: TextRequest<'a>,
    exptime: Option<Exptime>,
    with_cas: bool,
) -> Given<'a>
    ensures { outcome_shown result ≡ keys_step past (shown request.entry) exptime with_cas }
{
    Given {
        taken: past,
        event: StreamEvent::Request(request),
        state: ReaderState::Keys { exptime, with_cas },
    }
}

/// A line, or what belongs to it, that is refused.
fn refused_given<'a>(past: usize, refusal: LineRefusal, state: ReaderState) -> Given<'a>
    ensures { outcome_shown result ≡ outcome past (TellRefused refusal) state }
{
    Given {
        taken: past,
        event: StreamEvent::Refused(refusal),
        state,
    }
}

/// Whether two bytes end a line.
fn is_line_end(first: u8, second: u8) -> bool
    ensures { result ≡ ((first == 13) && (second == 10)) }
{
    first == b'\r' && second == b'\n'
}

/// The data block of a request, after its line of `past` bytes.
fn block_given<'a>(
    most: u32,
    past: usize,
    request: TextRequest<'a>,
    len: u32,
    noreply: bool,
    rest: &'a [u8],
) -> Given<'a>
    requires { past ≤ 2049 }
    ensures exact { outcome_shown result ≡ block_step most past (shown request.entry) len noreply rest.now }
    ensures within { result.taken ≤ past + length rest.now }
{
    if most < len {
        return Given {
            taken: past,
            event: StreamEvent::TooLarge(request),
            state: ReaderState::SkipData(u64::from(len) + 2),
        };
    }
    let block_len = len as usize;
    if rest.len() < block_len + 2 {
        return nothing(ReaderState::Line);
    }
    if !is_line_end(rest[block_len], rest[block_len + 1]) {
        let refusal = LineRefusal {
            fault: LineError::BadData,
            noreply,
            block: RefusedBlock::Absent,
        };
        return refused_given(past + block_len + 2, refusal, ReaderState::Line);
    }
    Given {
        taken: past + block_len + 2,
        event: StreamEvent::Data {
            request,
            data: &rest[..block_len],
        },
        state: ReaderState::Line,
    }
}

/// A request of a line that is whole. The line with its feed has `past` bytes, and the rest is after it.
fn request_given<'a>(
    most: u32,
    past: usize,
    line: &'a [u8],
    rest: &'a [u8],
    request: TextRequest<'a>,
) -> Given<'a>
    requires small { past ≤ 2049 }
    requires line { length line.now ≤ past }
    ensures exact { outcome_shown result ≡ asked_step most past line.now rest.now (shown request.entry) }
    ensures within { result.taken ≤ past + length rest.now }
{
    match request {
        TextRequest::Get { with_cas } => {
            let keys = after_word(line);
            keys_given(line.len() - keys.len(), request, None, with_cas)
        }
        TextRequest::GetAndTouch { exptime, with_cas } => {
            let keys = after_word(after_word(line));
            keys_given(line.len() - keys.len(), request, Some(exptime), with_cas)
        }
        TextRequest::Store(store) => block_given(
            most,
            past,
            request,
            store.length,
            store.noreply,
            rest,
        ),
        TextRequest::Meta(meta) => match meta.command {
            MetaCommand::Set => block_given(most, past, request, meta.length, false, rest),
            _ => plain_given(past, request),
        },
        _ => plain_given(past, request),
    }
}

/// A line that is whole, with its feed at a place.
fn whole_given<'a>(most: u32, bytes: &'a [u8], at: usize) -> Given<'a>
    requires { (at < length bytes.now) × (at ≤ 2048) }
    ensures exact { outcome_shown result ≡ line_by most bytes.now (Some at) }
    ensures within { result.taken ≤ length bytes.now }
{
    let line = without_return(&bytes[..at]);
    match parse(line) {
        Ok(request) => request_given(most, at + 1, line, &bytes[at + 1..], request),
        Err(refusal) => line_refused(at + 1, is_http(line), refusal),
    }
}

/// A line of so many bytes that is refused, by whether it is HTTP's.
fn line_refused<'a>(past: usize, is_http: bool, refusal: LineRefusal) -> Given<'a>
    ensures { outcome_shown result ≡ refused_step past is_http refusal }
{
    if is_http {
        return Given {
            taken: past,
            event: StreamEvent::Foreign,
            state: ReaderState::Closed,
        };
    }
    refused_given(past, refusal, after_refusal(refusal.block))
}

/// Where the reader stands after a refused line.
fn after_refusal(block: RefusedBlock) -> ReaderState
    ensures { result ≡ after_refusal block }
{
    match block {
        RefusedBlock::Absent => ReaderState::Line,
        RefusedBlock::OfLength(length) => ReaderState::SkipData(u64::from(length) + 2),
        RefusedBlock::Unreadable => ReaderState::Closed,
    }
}

/// The first 2,048 bytes of a longer line.
fn long_given<'a>(line: &'a [u8]) -> Given<'a>
    requires { 2048 ≤ length line.now }
    ensures exact { outcome_shown result ≡ long_step line.now (request_of line.now) }
    ensures within { result.taken ≤ length line.now }
{
    match parse(line) {
        Ok(request) => match request {
            TextRequest::Get { with_cas } => {
                let keys = after_word(line);
                keys_given(line.len() - keys.len(), request, None, with_cas)
            }
            TextRequest::GetAndTouch { exptime, with_cas } => {
                let keys = after_word(after_word(line));
                keys_given(line.len() - keys.len(), request, Some(exptime), with_cas)
            }
            _ => too_long(),
        },
        Err(_) => too_long(),
    }
}

/// A line is too long.
fn too_long<'a>() -> Given<'a>
    ensures { outcome_shown result ≡ too_long }
{
    refused_given(
        MAX_LINE_LEN,
        LineRefusal::loud(LineError::LineTooLong),
        ReaderState::Closed,
    )
}

/// What bytes at the start of a line give.
#[tactic(auto, unfolding(crate::specs::Steps::line_step))]
fn line_given<'a>(most: u32, bytes: &'a [u8]) -> Given<'a>
    ensures exact { outcome_shown result ≡ line_step most bytes.now }
    ensures within { result.taken ≤ length bytes.now }
{
    if bytes.is_empty() {
        return nothing(ReaderState::Line);
    }
    if bytes[0] == BINARY {
        return Given {
            taken: 1,
            event: StreamEvent::Foreign,
            state: ReaderState::Closed,
        };
    }
    match feed_at(front(bytes, MAX_LINE_LEN + 1)) {
        Some(at) => whole_given(most, bytes, at),
        None => {
            if bytes.len() <= MAX_LINE_LEN {
                nothing(ReaderState::Line)
            } else {
                long_given(front(bytes, MAX_LINE_LEN))
            }
        }
    }
}

/// A word among keys.
fn key_given<'a>(
    exptime: Option<Exptime>,
    with_cas: bool,
    past: usize,
    refused: ReaderState,
    word: &'a [u8],
) -> Given<'a>
    requires { length word.now ≤ past }
    ensures exact { outcome_shown result ≡ key_or exptime with_cas past refused word.now }
    ensures within { result.taken ≤ past }
{
    if is_key(word) {
        Given {
            taken: word.len(),
            event: StreamEvent::Key {
                key: word,
                exptime,
                with_cas,
            },
            state: ReaderState::Keys { exptime, with_cas },
        }
    } else {
        refused_given(past, LineRefusal::loud(LineError::BadFormat), refused)
    }
}

/// The last word of a line of keys, without the carriage return.
fn last_key_given<'a>(
    exptime: Option<Exptime>,
    with_cas: bool,
    past: usize,
    word: &'a [u8],
) -> Given<'a>
    requires { length word.now ≤ past }
    ensures exact { outcome_shown result ≡ last_key exptime with_cas past word.now }
    ensures within { result.taken ≤ past }
{
    if word.is_empty() {
        Given {
            taken: past,
            event: StreamEvent::KeysEnd,
            state: ReaderState::Line,
        }
    } else {
        key_given(exptime, with_cas, past, ReaderState::Line, word)
    }
}

/// What bytes among keys give, which do not begin with a space.
#[tactic(auto, unfolding(crate::specs::Steps::key_step))]
fn among_keys<'a>(exptime: Option<Exptime>, with_cas: bool, bytes: &'a [u8]) -> Given<'a>
    ensures exact { outcome_shown result ≡ key_step exptime with_cas bytes.now }
    ensures within { result.taken ≤ length bytes.now }
{
    match end_at(front(bytes, MAX_KEY_LEN + 2)) {
        Some(at) => {
            if bytes[at] == b'\n' {
                last_key_given(exptime, with_cas, at + 1, without_return(&bytes[..at]))
            } else {
                key_given(
                    exptime,
                    with_cas,
                    at + 1,
                    ReaderState::SkipLine,
                    &bytes[..at],
                )
            }
        }
        None => {
            if bytes.len() <= MAX_KEY_LEN + 1 {
                nothing(ReaderState::Keys { exptime, with_cas })
            } else {
                refused_given(
                    MAX_KEY_LEN + 2,
                    LineRefusal::loud(LineError::BadFormat),
                    ReaderState::SkipLine,
                )
            }
        }
    }
}

/// What bytes of the rest of a line that is passed over are.
#[tactic(auto, unfolding(crate::specs::Steps::passing))]
fn pass_line(bytes: &[u8]) -> Passed
    ensures exact { passing_shown result ≡ passing ReaderState.SkipLine bytes.now }
    ensures within { result.count ≤ length bytes.now }
{
    match feed_at(bytes) {
        Some(at) => Passed {
            count: at + 1,
            state: ReaderState::Line,
        },
        None => Passed {
            count: bytes.len(),
            state: ReaderState::SkipLine,
        },
    }
}

/// How many of the bytes are passed over.
#[tactic(auto, unfolding(crate::specs::Steps::passing))]
fn pass(state: ReaderState, bytes: &[u8]) -> Passed
    ensures exact { passing_shown result ≡ passing state bytes.now }
    ensures within { result.count ≤ length bytes.now }
{
    match state {
        ReaderState::Line => Passed { count: 0, state },
        ReaderState::Keys { .. } => Passed {
            count: spaces(bytes),
            state,
        },
        ReaderState::SkipLine => pass_line(bytes),
        ReaderState::SkipData(count) => {
            let len = bytes.len() as u64;
            if len < count {
                Passed {
                    count: bytes.len(),
                    state: ReaderState::SkipData(count - len),
                }
            } else {
                Passed {
                    count: count as usize,
                    state: ReaderState::Line,
                }
            }
        }
        ReaderState::Closed => Passed {
            count: bytes.len(),
            state,
        },
    }
}

/// What bytes give after those that are passed over.
#[tactic(auto, unfolding(crate::specs::Steps::decided))]
fn decide<'a>(most: u32, state: ReaderState, bytes: &'a [u8]) -> Given<'a>
    ensures exact { outcome_shown result ≡ decided most state bytes.now }
    ensures within { result.taken ≤ length bytes.now }
{
    match state {
        ReaderState::Line => line_given(most, bytes),
        ReaderState::Keys { exptime, with_cas } => among_keys(exptime, with_cas, bytes),
        ReaderState::SkipLine => nothing(state),
        ReaderState::SkipData(_) => nothing(state),
        ReaderState::Closed => nothing(state),
    }
}

/// A reader of requests that come in pieces, cut anywhere. It keeps no bytes: those that it did not take are fed
/// again, with what comes after them.
#[derive(Clone, Copy)]
pub struct RequestReader {
    /// The most bytes of a data block that is taken; a longer one is passed over as it comes.
    pub max_data_len: u32,
    /// Where it stands.
    pub state: ReaderState,
}

impl RequestReader {
    /// A reader at the start of a connection.
    pub fn new(max_data_len: u32) -> RequestReader
        ensures { result ≡ record { max_data_len = max_data_len; state = ReaderState.Line } }
    {
        RequestReader {
            max_data_len,
            state: ReaderState::Line,
        }
    }

    /// Takes the next step that the bytes give, which begin after those that were taken before.
    #[tactic(auto, unfolding(crate::specs::Steps::step_of))]
    pub fn take<'a>(&mut self, bytes: &'a [u8]) -> StreamStep<'a>
        ensures exact { outcome result.taken (event_shown result.event) self.new.state ≡ step_of self.old.max_data_len self.old.state bytes.now }
        ensures limit { self.new.max_data_len ≡ self.old.max_data_len }
        ensures within { result.taken ≤ length bytes.now }

        // What is given takes a byte or more: so a loop over steps ends.
        ensures some { is_more (event_shown result.event) ≡ false → 1 ≤ result.taken }

        // The flags of a meta request have no fault: each letter stands once, so its answer is bounded.
        ensures flags { GivesFlags (event_shown result.event) }

        // If nothing is whole, few bytes are left untaken: a line of 2,048 bytes, a data block, and their ends but for one byte.
        ensures few { event_shown result.event ≡ TellMore → length bytes.now ≤ result.taken + (2050 + self.old.max_data_len) }

        // However the stream is cut, its events are the same: these, and then those of the rest with what follows it.
        ensures steady { (more : List ℕ) → events_of self.old.max_data_len self.old.state (bytes.now ++ more)
            ≡ given_list (event_shown result.event) ++ events_of self.old.max_data_len self.new.state (drop result.taken bytes.now ++ more) }
    {
        let passed = pass(self.state, bytes);
        let given = decide(self.max_data_len, passed.state, &bytes[passed.count..]);
        self.state = given.state;
        StreamStep {
            taken: passed.count + given.taken,
            event: given.event,
        }
    }
}
