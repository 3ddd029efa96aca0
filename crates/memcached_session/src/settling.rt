// The end of a step.
ghost use Rattle.std.specs.Prelude.{◌≡◌, ◌≤◌, length, IfSome};
ghost use Rattle.memcached_text.specs.declared.reader_state.ReaderState.{ReaderState};
ghost use Rattle.memcached_text.specs.Answers.{answer_text};
ghost use Rattle.memcached_text.specs.Asked.{shown};
ghost use Rattle.memcached_text.specs.Steps.{event_shown, outcome};
ghost use Rattle.memcached_session.specs.Saying.{said_shown, text_of};
ghost use Rattle.memcached_session.specs.Stepping.{state_asked, state_after, Writes, SettlesAs, Settles, written_in};

use crate::answered::{Answered, SessionAnswer};
use crate::command::SessionCommand;
use crate::done::SessionDone;
use crate::outcome::SessionOutcome;
use crate::session::Session;
use memcached_text::{
    AnswerBytes, ReaderState, StreamEvent, StreamStep, TextAnswer, TextRequest, append_answer,
};

/// Ends a step: writes its answer to the front of the room, says where the session stands, and reports. If the answer is
/// longer than the room, or than 4,096 bytes, the room stays as it is, and the session is to be closed.
pub(crate) fn settle(
    step: &StreamStep<'_>,
    state: ReaderState,
    answered: &Answered<'_>,
    session: &mut Session,
    room: &mut [u8],
) -> SessionDone
    ensures settles { SettlesAs (outcome step.now.taken (event_shown step.now.event) state)
        (said_shown answered.now) room.old result session.new room.new }
    ensures taken { result.taken ≡ step.now.taken }
    ensures answered { result.answered ≤ length room.old }
    ensures most { result.answered ≤ 4096 }
{
    let command = SessionCommand::of(&step.event).number();
    match write(&answered.answer, room) {
        Some(count) => {
            *session = Session::of(state_after(&step.event, state));
            SessionDone {
                taken: step.taken,
                answered: count,
                command,
                outcome: answered.outcome.number(),
            }
        }
        None => {
            *session = Session::closed();
            SessionDone {
                taken: step.taken,
                answered: 0,
                command,
                outcome: SessionOutcome::Lost.number(),
            }
        }
    }
}

// Where a session stands after what a reader gave.
fn state_after(event: &StreamEvent<'_>, state: ReaderState) -> ReaderState
    ensures { result ≡ state_after (event_shown event.now) state }
{
    match event {
        StreamEvent::Request(TextRequest::Quit) => ReaderState::Closed,
        _ => state,
    }
}

// Writes an answer to the front of the room. How many bytes it has; `None` if it is longer than the room, or than 4,096 bytes.
fn write(answer: &Option<SessionAnswer<'_>>, room: &mut [u8]) -> Option<usize>
    ensures count { result ≡ written_in room.old (text_of answer.now) }
    ensures writes { Writes (text_of answer.now) room.old result room.new }
    ensures within { IfSome result (λ count. count ≤ length room.old) }
    ensures few { IfSome result (λ count. count ≤ 4096) }
{
    match answer {
        None => Some(0),
        Some(SessionAnswer::Text(text)) => write_text(text, room),
        Some(SessionAnswer::Unserved(unserved)) => copy_front(unserved.text().as_bytes(), room),
    }
}

// Writes an answer of the protocol to the front of the room.
fn write_text(answer: &TextAnswer<'_>, room: &mut [u8]) -> Option<usize>
    ensures count { result ≡ written_in room.old (answer_text answer.now) }
    ensures writes { Writes (answer_text answer.now) room.old result room.new }
    ensures within { IfSome result (λ count. count ≤ length room.old) }
    ensures few { IfSome result (λ count. count ≤ 4096) }
{
    let mut text: AnswerBytes = AnswerBytes::new();
    match append_answer(&mut text, answer) {
        Ok(()) => copy_front(&text, room),
        Err(_) => None,
    }
}

// Copies a text to the front of the room, if there is so much.
fn copy_front(text: &[u8], room: &mut [u8]) -> Option<usize>
    requires { length text.now ≤ 4096 }
    ensures count { result ≡ written_in room.old text.now }
    ensures writes { Writes text.now room.old result room.new }
    ensures within { IfSome result (λ count. count ≤ length room.old) }
    ensures few { IfSome result (λ count. count ≤ 4096) }
{
    let count = text.len();
    if count > room.len() {
        return None;
    }
    room[..count].copy_from_slice(text);
    Some(count)
}
