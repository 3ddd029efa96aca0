// The puts of a history, with their links.
use crate::put::Put;

/// The puts of a history in their order, with a link for each: see `links_of`.
#[derive(Clone, Copy)]
pub(crate) struct LinkedPuts<'a> {
    /// The puts.
    pub(crate) puts: &'a [Put],
    /// For each of them an index no later than its own: no put from there to it can be read longer than it.
    pub(crate) links: &'a [u32],
}
