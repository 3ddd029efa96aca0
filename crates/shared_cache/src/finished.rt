// What is left of a cache that is over.
use trace_file::{Certificate, History};

/// What is left of a cache that is over: its calls laid out as one history, and its devices.
#[derive(Drop)]
pub struct Finished<D> {
    /// The calls of the lanes, one lane after the other, with the ends that the passes list.
    pub history: History,
    /// The positions of the calls by point, and at equal points those of the lesser lane first.
    pub certificate: Certificate,
    /// The devices, in the order of their lanes, each as it is now.
    pub devices: Vec<D>,
}
