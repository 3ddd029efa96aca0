//! Those that hear a stream in pieces: a reader of requests, and a session over a lane.
use super::scripted::{Lane, new_lane};
use super::words::rest_of;
use memcached_session::{Need, Session, SessionTurn, Want, lane_step, step, what_is_wanted};
use memcached_text::{RequestReader, StreamEvent};
use record_pages::ValueBuffer;
use std::alloc::{AllocError, Global};
use std::test::Fail;
use test_devices::{TextStep, is};

/// Who hears a stream, and whether it is to be closed at its end.
#[derive(Clone, Copy)]
pub enum Hearing {
    /// A reader of requests that takes data blocks of 10 bytes. It is told of its events, a line each.
    Reader,
    /// A session of a server that refuses a flush and its end, or not, at this place in its stream. It is told what it answers.
    Session {
        refuses: u32,
        place: u32,
        closes: bool,
    },
}

impl Hearing {
    /// The one of a step.
    pub fn named(word: &[u8]) -> Option<Hearing> {
        if is(word, b"events") {
            Some(Hearing::Reader)
        } else if is(word, b"answers") {
            Some(Hearing::session(0, 0, false))
        } else if is(word, b"closes") {
            Some(Hearing::session(0, 0, true))
        } else if is(word, b"refuses") {
            Some(Hearing::session(1, 0, false))
        } else if is(word, b"nowhere") {
            Some(Hearing::session(0, 9, true))
        } else {
            None
        }
    }

    fn session(refuses: u32, place: u32, closes: bool) -> Hearing {
        Hearing::Session {
            refuses,
            place,
            closes,
        }
    }
}

/// What was heard of a stream: what is told of it, how many of its bytes are left, and whether who heard it is to be closed.
#[derive(Drop)]
struct Heard {
    told: Vec<u8>,
    left: usize,
    is_closed: bool,
}

/// Takes two lengths, how many bytes are left, and what is told of a stream that comes in pieces of each length from the first to
/// the second; tells what is told otherwise.
pub fn hear_pieces(
    alloc: Global,
    hearing: Hearing,
    stream: &[u8],
    step: &mut TextStep<'_>,
) -> Result<(), Fail> {
    let first = step.small() as usize;
    let last = step.small() as usize;
    let left = step.small() as usize;
    let wanted = rest_of(step);
    if first == 0 || last < first {
        step.refuse();
    }
    for piece in first..last + 1 {
        let heard = hear(alloc, hearing, stream, piece)?;
        if heard.told.as_slice() != wanted.as_slice() || heard.left != left {
            step.tell(heard.told.as_slice());
            step.tell_number(heard.left as u64);
            return Ok(());
        }
        if heard.is_closed {
            step.refuse();
        }
    }
    Ok(())
}

// What a new reader or session hears of a stream in pieces of so many bytes. It is closed otherwise than it is to be, if it says so.
fn hear(alloc: Global, hearing: Hearing, stream: &[u8], piece: usize) -> Result<Heard, Fail> {
    match hearing {
        Hearing::Reader => {
            let mut reader = RequestReader::new(10);
            Ok(hear_all(alloc, &mut reader, stream, piece)?)
        }
        Hearing::Session {
            refuses,
            place,
            closes,
        } => {
            let mut client = Client::new(new_lane(alloc, 16)?, refuses, place);
            let heard = hear_all(alloc, &mut client, stream, piece)?;
            Ok(Heard {
                is_closed: client.is_closed != closes,
                ..heard
            })
        }
    }
}

/// The most steps that are taken after a piece.
const MAX_STEPS: usize = 100;

/// What takes steps of a stream.
trait Hears {
    /// Takes a step, and gives how many bytes it took, or `None` if it needs more bytes or is to be closed. It tells what the step
    /// gives.
    fn take(
        &mut self,
        alloc: Global,
        bytes: &[u8],
        told: &mut Vec<u8>,
    ) -> Result<Option<usize>, AllocError>;
}

impl Hears for RequestReader {
    fn take(
        &mut self,
        alloc: Global,
        bytes: &[u8],
        told: &mut Vec<u8>,
    ) -> Result<Option<usize>, AllocError> {
        let step = RequestReader::take(self, bytes);
        if let StreamEvent::More = step.event {
            return Ok(if step.taken == 0 {
                None
            } else {
                Some(step.taken)
            });
        }
        told.extend_from_slice(format!(in alloc; "{:?}\r\n", step.event)?.as_bytes())?;
        Ok(Some(step.taken))
    }
}

/// A client of a session over a lane, and the numbers that its server draws.
#[derive(Drop)]
struct Client {
    lane: Box<Lane>,
    session: Session,
    turn: SessionTurn,
    is_closed: bool,
}

impl Client {
    // A client of a server that refuses a flush and its end, or not, at a place in its stream.
    fn new(lane: Box<Lane>, refuses: u32, place: u32) -> Client {
        Client {
            lane,
            session: Session {
                place,
                ..Session::new()
            },
            turn: SessionTurn {
                moment: 1000,
                flushed: 0,
                cas: 0,
                refuses,
                reserved: 0,
            },
            is_closed: false,
        }
    }
}

impl Hears for Client {
    // Each step that may give an item a number has one of its own, from 1 on.
    fn take(
        &mut self,
        alloc: Global,
        bytes: &[u8],
        told: &mut Vec<u8>,
    ) -> Result<Option<usize>, AllocError> {
        let mut room = [0; 4096];
        let done = match what_is_wanted(&self.session, bytes) {
            Want::Lane { gives_number, .. } => {
                self.turn.cas = self.turn.cas.saturating_add(u64::from(gives_number));
                lane_step(
                    &mut *self.lane,
                    alloc,
                    &mut self.session,
                    self.turn.with_word(0),
                    bytes,
                    &mut ValueBuffer::empty(),
                    &mut room,
                )
            }
            Want::Alone(Need::More) => return Ok(None),
            Want::Alone(Need::Close) => {
                self.is_closed = true;
                return Ok(None);
            }
            Want::Alone(_) => step(&mut self.session, &self.turn, bytes, &mut room),
        };
        told.extend_from_slice(&room[..done.answered])?;
        Ok(Some(done.taken))
    }
}

// Feeds a stream in pieces of so many bytes, each with what was left of those before it.
fn hear_all<H: Hears>(
    alloc: Global,
    hears: &mut H,
    stream: &[u8],
    piece: usize,
) -> Result<Heard, AllocError> {
    let mut told = Vec::new(alloc);
    let mut from = 0usize;
    for end in 0..stream.len() + 1 {
        if from <= end && (end == stream.len() || end % piece.max(1) == 0) {
            let taken = feed(alloc, hears, &stream[from..end], &mut told)?;
            from = from.saturating_add(taken).min(end);
        }
    }
    Ok(Heard {
        told,
        left: stream.len().saturating_sub(from),
        is_closed: false,
    })
}

// Takes all steps that bytes give, and gives how many of them are taken.
fn feed<H: Hears>(
    alloc: Global,
    hears: &mut H,
    bytes: &[u8],
    told: &mut Vec<u8>,
) -> Result<usize, AllocError> {
    let mut rest = bytes;
    for _ in 0..MAX_STEPS {
        match hears.take(alloc, rest, told)? {
            Some(taken) => rest = &rest[taken.min(rest.len())..],
            None => break,
        }
    }
    Ok(bytes.len().saturating_sub(rest.len()))
}
