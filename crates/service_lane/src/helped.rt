// What a put did for the room that it took.

/// The most steps of upkeep that one call does in help.
pub const MAX_HELP_STEPS: u32 = 4;

/// What a call did in help.
#[derive(Clone, Copy, PartialEq, Eq)]
pub struct Helped {
    /// How many steps it did.
    pub steps: u32,
    /// Whether the last of them may have asked the device.
    pub asked_device: bool,
}
