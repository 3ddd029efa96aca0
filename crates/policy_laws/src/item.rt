// One of the items between which a policy chooses.
use record_pages::{ItemList, Prediction};

/// What a policy knows of an item: no key, no value.
#[derive(Clone, Copy, PartialEq, Eq)]
pub struct Item {
    /// How many bytes it takes on a page.
    pub size: u32,
    /// How soon it is predicted to be asked for again.
    pub prediction: Prediction,
    /// Whether it was hit since its set was written. A fresh item has no hit.
    pub hit: bool,
    /// Whether it comes from the log. An old item comes from the set's page.
    pub fresh: bool,
}

/// The items of a job. The number of an item is its index here.
pub type Items = ItemList<Item>;
