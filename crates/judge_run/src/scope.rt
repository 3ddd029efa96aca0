// What of a text is judged.
use history_text::Reading;

/// What of the calls that a text spells is judged.
#[derive(Clone, Copy, PartialEq, Eq)]
pub struct Scope {
    /// By how much each stamp may differ from the truth, in the unit of the stamps. Each call is judged as if it had started so much
    /// earlier and ended so much later; what it put expires so much later, and the moment of a hit is so much earlier.
    pub skew: u64,
    /// Whether the cache may have been filled before the calls: a value that a hit read and nobody put is taken as there from the
    /// start, one of a key, as `certificate_finder::warm` has it.
    pub warm: bool,
    /// Which keys' calls are read, and whether bad lines are passed over.
    pub reading: Reading,
    /// How far before the last end so far a call that is still to come may start, in the unit of the stamps, if the text is read as a
    /// stream: what was judged is then forgotten, once nothing that comes later can depend on it.
    pub window: Option<u64>,
}

impl Scope {
    /// All calls, as they were recorded. A bad line is a fault.
    pub const WHOLE: Scope = Scope {
        skew: 0,
        warm: false,
        reading: Reading::WHOLE,
        window: None,
    };
}
