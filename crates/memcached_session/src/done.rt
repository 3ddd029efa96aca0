// What a step reports.

/// What a step reports: how many bytes it took, how many it answered, and what it was, for counters.
#[repr(C)]
#[derive(Clone, Copy)]
pub struct SessionDone {
    /// How many bytes are taken. The rest is to be fed again, with what comes after it.
    pub taken: usize,
    /// How many bytes of the answer stand at the front of the room for it; 0 if none is wanted.
    pub answered: usize,
    /// The number of its `SessionCommand`.
    pub command: u32,
    /// The number of its `SessionOutcome`.
    pub outcome: u32,
}

impl SessionDone {
    /// That of a step that did nothing.
    pub(crate) fn nothing() -> SessionDone
        ensures { result ≡ record { taken = 0; answered = 0; command = 0; outcome = 0 } }
    {
        SessionDone {
            taken: 0,
            answered: 0,
            command: 0,
            outcome: 0,
        }
    }
}

ghost use Rattle.std.specs.Prelude.{◌≡◌};
