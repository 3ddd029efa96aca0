// Where a session stands between two steps.
ghost use Rattle.std.specs.Prelude.{◌≡◌};
ghost use Rattle.memcached_session.specs.Standing.{state_of, exptime_of, keys_state};
ghost use Rattle.memcached_text.specs.declared.reader_state.ReaderState.{ReaderState};

use memcached_text::{Exptime, ReaderState, RequestReader};

/// The most bytes of a data block that is taken: those of an item with neither flags nor an expiry. A longer one is passed over.
pub const MAX_BLOCK_LEN: u32 = 2039;

const LINE: u32 = 0;

const KEYS: u32 = 1;

const SKIP_LINE: u32 = 2;

const SKIP_DATA: u32 = 3;

const CLOSED: u32 = 4;

const NO_EXPIRY: u32 = 0;

const NEVER: u32 = 1;

const AT: u32 = 2;

const PAST: u32 = 3;

/// Where a session stands between two steps, as plain data: all zeros is the start of a client's stream. Numbers that are no
/// place are a session that is to be closed.
#[repr(C)]
#[derive(Clone, Copy)]
pub struct Session {
    /// How many bytes are still to be passed over, at place 3.
    pub skipped: u64,
    /// 0 at the start of a line, 1 among the keys of a get, 2 in a line that is passed over, 3 before bytes that are passed over,
    /// 4 at the end: the client is to be closed.
    pub place: u32,
    /// The expiry that each of the keys gets, at place 1: 0 for none, 1 never, 2 at `seconds`, 3 at once.
    pub expiry: u32,
    /// The seconds of that expiry.
    pub seconds: u32,
    /// 1 if the client wants each value's cas unique, at place 1; else 0.
    pub with_cas: u32,
}

impl Session {
    /// The session of a new client.
    pub const fn new() -> Session
        ensures { state_of result ≡ ReaderState.Line }
    {
        Session {
            skipped: 0,
            place: LINE,
            expiry: NO_EXPIRY,
            seconds: 0,
            with_cas: 0,
        }
    }

    /// The reader of its requests.
    pub(crate) fn reader(&self) -> RequestReader
        ensures { result ≡ record { max_data_len = 2039; state = state_of self.now } }
    {
        RequestReader {
            max_data_len: MAX_BLOCK_LEN,
            state: self.state(),
        }
    }

    /// The session that stands at a state of its reader.
    pub(crate) fn of(state: ReaderState) -> Session
        ensures { state_of result ≡ state }
    {
        match state {
            ReaderState::Line => Session::new(),
            ReaderState::Keys { exptime, with_cas } => Session::among_keys(exptime, with_cas),
            ReaderState::SkipLine => Session {
                place: SKIP_LINE,
                ..Session::new()
            },
            ReaderState::SkipData(skipped) => Session {
                skipped,
                place: SKIP_DATA,
                ..Session::new()
            },
            ReaderState::Closed => Session::closed(),
        }
    }

    // A session that is to be closed.
    pub(crate) fn closed() -> Session
        ensures { state_of result ≡ ReaderState.Closed }
    {
        Session {
            place: CLOSED,
            ..Session::new()
        }
    }

    // A session among the keys of a get.
    fn among_keys(exptime: Option<Exptime>, with_cas: bool) -> Session
        ensures { state_of result ≡ ReaderState.Keys exptime with_cas }
    {
        let (expiry, seconds) = match exptime {
            None => (NO_EXPIRY, 0),
            Some(Exptime::Never) => (NEVER, 0),
            Some(Exptime::At(seconds)) => (AT, seconds),
            Some(Exptime::Past) => (PAST, 0),
        };
        Session {
            skipped: 0,
            place: KEYS,
            expiry,
            seconds,
            with_cas: u32::from(with_cas),
        }
    }

    // The state of its reader.
    fn state(&self) -> ReaderState
        ensures { result ≡ state_of self.now }
    {
        match self.place {
            LINE => ReaderState::Line,
            KEYS => self.keys_state(),
            SKIP_LINE => ReaderState::SkipLine,
            SKIP_DATA => ReaderState::SkipData(self.skipped),
            _ => ReaderState::Closed,
        }
    }

    // The state of a reader among keys.
    fn keys_state(&self) -> ReaderState
        ensures { result ≡ keys_state (exptime_of self.now) self.now }
    {
        let with_cas = self.with_cas != 0;
        match self.expiry {
            NO_EXPIRY => ReaderState::Keys {
                exptime: None,
                with_cas,
            },
            NEVER => ReaderState::Keys {
                exptime: Some(Exptime::Never),
                with_cas,
            },
            AT => ReaderState::Keys {
                exptime: Some(Exptime::At(self.seconds)),
                with_cas,
            },
            PAST => ReaderState::Keys {
                exptime: Some(Exptime::Past),
                with_cas,
            },
            _ => ReaderState::Closed,
        }
    }
}
