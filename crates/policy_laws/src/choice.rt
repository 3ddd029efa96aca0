// One kept item of a plan.
use record_pages::{ItemList, Prediction};

/// An item that is kept, and the prediction that it is written with.
#[derive(Clone, Copy, PartialEq, Eq)]
pub struct Choice {
    /// The number of the item in its job.
    pub item: usize,
    /// Its new prediction.
    pub prediction: Prediction,
}

/// The items that are kept, in the order in which they are written. All others are left out.
pub type Plan = ItemList<Choice>;
