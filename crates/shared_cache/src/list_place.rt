// Where passes list a call.

/// The place of a listed call: its pass, by its number among the passes, and its place in the pass's list, both from 0.
#[derive(Clone, Copy)]
pub(crate) struct ListPlace {
    /// The number of the pass.
    pub(crate) pass: usize,
    /// The place in the pass's list.
    pub(crate) call: usize,
}
