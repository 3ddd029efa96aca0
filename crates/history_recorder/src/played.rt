// What was played in a world.
use crate::reply::Replies;
use trace_file::{Certificate, History};

/// What was played in a world: a reply to each event, and the calls that its lanes recorded, laid out.
#[derive(Drop)]
pub struct Played {
    /// A reply to each event.
    pub replies: Replies,
    /// The recorded calls, one lane after the other.
    pub history: History,
    /// The positions of the calls by point, and at equal points those of the lesser lane first.
    pub certificate: Certificate,
}
