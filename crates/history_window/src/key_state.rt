// What is known of a key.
ghost use Rattle.std.specs.Prelude.{◌≡◌};
ghost use Rattle.trace_file.specs.Lent.{call_shown};
ghost use Rattle.history_window.specs.States.{after_first, after_second, is_settled_by, no_state};

use trace_file::CallRef;

/// What is known of the writes of a key.
#[derive(Clone, Copy)]
pub(crate) struct KeyState {
    /// The greatest start of its writes.
    pub(crate) start: u64,
    /// The greatest end of its writes.
    pub(crate) end: u64,
    /// Whether it has last writes.
    pub(crate) known: bool,
    /// The position of one of them.
    pub(crate) latest: u32,
    /// Whether two of them did not do the same.
    pub(crate) unlike: bool,
}

impl KeyState {
    /// Of a key that no call was made for.
    pub(crate) fn none() -> KeyState
        ensures { result ≡ no_state }
    {
        KeyState {
            start: 0,
            end: 0,
            known: false,
            latest: 0,
            unlike: false,
        }
    }

    /// With a write.
    pub(crate) fn after_write(self, call: &CallRef<'_>) -> KeyState
        ensures { result ≡ after_first self (call_shown call.now) }
    {
        KeyState {
            start: self.start.max(call.start),
            end: self.end.max(call.end),
            ..self
        }
    }

    /// With a write at a position, once the greatest start is known of all; `unlike` says whether it is unlike the latest.
    pub(crate) fn after_place(self, position: u32, call: &CallRef<'_>, unlike: bool) -> KeyState
        ensures { result ≡ after_second self position (call_shown call.now) unlike }
    {
        if call.end < self.start {
            return self;
        }
        KeyState {
            known: true,
            latest: position,
            unlike: self.unlike || unlike,
            ..self
        }
    }

    /// Whether the key is settled at a stamp.
    pub(crate) fn is_settled(self, bound: u64) -> bool
        ensures { result ≡ is_settled_by self bound }
    {
        self.end < bound && !self.unlike
    }
}
