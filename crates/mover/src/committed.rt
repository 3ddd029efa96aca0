// How a move ended by a plan.

/// How a move ended by a plan, or why it did not.
#[derive(Clone, Copy, PartialEq, Eq)]
pub enum Committed {
    /// The set's page was written.
    Written,
    /// It was not written, and the set is forgotten.
    Forgotten,
    /// No move with that number is in flight.
    StalePlan,
    /// The plan names an item that is not there, or one twice, or items that do not fit on a set page.
    BadPlan,
}
